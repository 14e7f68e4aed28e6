// The sheets to try: case 4's, case 14's two damaged ones, every flip of a single bit of it, and sheets that try to mislead.
#![tactic(auto)]

mod given;

use crate::given::{BLOCK, FAR, SHEET, TIED};
use codes::table::house;
use desk::Refusal;
use sheets::check::check;
use show::Digits;
use std::io;

fn main(rt: HostRuntime) -> io::Result<()> {
    let mut dearer = SHEET;
    dearer[8] = 4;
    let mut longer = SHEET;
    longer[6] = 2;
    let mut beside = FAR;
    beside[25] = 1;
    let mut free = beside;
    free[27..31].fill(0);
    for (name, block, sheet) in [
        ("14  the sheet of case 4", BLOCK, SHEET.as_slice()),
        ("14  its last byte missing", BLOCK, &SHEET[..46]),
        ("14  its metric byte 04", BLOCK, &dearer),
        ("    for another L", BLOCK, &longer),
        ("    a node listed with cost 4294967295", BLOCK, &FAR),
        ("    an unreachable node with that cost", BLOCK, &beside),
        ("    an unreachable node with cost 0", BLOCK, &free),
        ("    two messages tied", [0; 6], &TIED),
    ] {
        line(&rt, name, &block, sheet)?;
    }
    println!(rt;
        "each bit of that sheet flipped, highest first: 0 accepted, 6 malformed, 7 not carried"
    )?;
    flips(&rt)
}

// One sheet for code 7, 5 and L=1: the answer, and a message buffer of two places, each 9 before the call.
fn line(rt: &impl Print, name: &str, block: &[i8], sheet: &[u8]) -> io::Result<()> {
    let mut message = [9; 2];
    let answer = check(house(0), 1, block, sheet, &mut message);
    let metric = answer.unwrap_or(0);
    let number = number(answer);
    let message = Digits {
        bytes: &message,
        group: 8,
    };
    println!(rt; "{name:45}{number}, metric {metric}, message {message}")
}

fn number(answer: Result<u32, Refusal>) -> u8 {
    answer.map_or_else(Refusal::number, |_| 0)
}

// A line for each byte: the numbers for its eight flips.
fn flips(rt: &impl Print) -> io::Result<()> {
    for at in 0..SHEET.len() {
        let numbers = [128, 64, 32, 16, 8, 4, 2, 1].map(|mask| flipped(at, mask));
        let numbers = Digits {
            bytes: &numbers,
            group: 8,
        };
        println!(rt; "byte {at}: {numbers}")?;
    }
    Ok(())
}

// The number for the sheet with bits of one byte flipped.
fn flipped(at: usize, mask: u8) -> u8 {
    let mut sheet = SHEET;
    if let Some(byte) = sheet.get_mut(at) {
        *byte ^= mask;
    }
    number(check(house(0), 1, &BLOCK, &sheet, &mut [9]))
}

// What the program says.
use codes::table::Code;
use desk::Refusal;
use search::seen::Found;
use show::Digits;
use std::{fmt, io};

pub fn block(rt: &impl Print, code: Code, bits: usize, symbols: usize) -> io::Result<()> {
    let [first, second, ..] = code.generators;
    let memory = code.memory;
    println!(rt; "code {first}, {second} of memory {memory}; {bits} bits in {symbols} symbols")
}

// The message by its bits and as text.
pub fn message(rt: &impl Print, bits: &[u8]) -> io::Result<()> {
    let digits = Digits {
        bytes: bits,
        group: 8,
    };
    println!(rt; "message {digits}\nas text {}", Letters(bits))
}

// Eight bits a letter; bits behind the last whole letter make none.
#[derive(Clone, Copy, Debug)]
struct Letters<'a>(&'a [u8]);

impl fmt::Display for Letters<'_> {
    fn fmt<W: fmt::Write>(&self, f: &mut fmt::Formatter<W>) -> fmt::Result {
        for bits in self.0.chunks_exact(8) {
            write!(f, "{}", letter(bits))?;
        }
        Ok(())
    }
}

// A letter, digit or mark; anything else is a '?'.
fn letter(bits: &[u8]) -> char {
    match bits.iter().fold(0, |code: u8, bit| code << 1 | bit % 2) {
        code @ b' '..=b'~' => char::from(code),
        _ => '?',
    }
}

pub fn found(rt: &impl Print, Found { metric, steps }: Found) -> io::Result<()> {
    println!(rt; "metric {metric}, and no other message has as little; {steps} nodes expanded")
}

// What is read before there is a call to refuse.
pub fn too_short(rt: &impl Print) -> io::Result<()> {
    println!(rt; "no block: there must be a byte for the row and two for L")
}

pub fn too_long(rt: &impl Print) -> io::Result<()> {
    println!(rt; "no block: the longest has 864 symbols")
}

// A refusal by its number, what it means, and the numbers that it hands back.
pub fn refused(rt: &impl Print, refusal: Refusal) -> io::Result<()> {
    match refusal {
        Refusal::BadCode => println!(rt; "refused 1: no house code has this row"),
        Refusal::BadSize => {
            println!(rt; "refused 2: L or the number of symbols is not as stated")
        }
        Refusal::NoRoom { steps } => {
            println!(rt; "refused 3: the search needs more room; {steps} nodes expanded")
        }
        Refusal::NoAllowance { steps } => {
            println!(rt; "refused 4: the allowance is spent; {steps} nodes expanded")
        }
        Refusal::Tied { metric, steps } => {
            print!(rt; "refused 5: tied, two or more messages have the least metric, {metric}")?;
            println!(rt; "; {steps} nodes expanded")
        }
        // A decode without a sheet gives no other.
        other => println!(rt; "refused {other}"),
    }
}

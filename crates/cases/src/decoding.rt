// The blocks to try that concern the decoder. Working memory is filled with 7s and message buffers with 9s before each call.
use crate::encoding::wide;
use crate::shown::{Rules, Start};
use codes::table::{Code, house};
use search::decoder::decode;
use search::seen::Found;
use std::{fmt, io};
use store::WORDS_PER_NODE;

// The most nodes that there may be room for, and their words.
const MOST: usize = 4096;

const WORDS: usize = WORDS_PER_NODE * MOST;

const ALL: u32 = u32::MAX;

// Case 4's block.
static BLOCK: [i8; 6] = [3, -5, -2, 1, -4, -6];

// A block to decode, with so many words of working memory and so many places for the message.
#[derive(Clone, Copy, Debug)]
struct Case<'a> {
    name: &'a str,
    code: Code,
    length: usize,
    symbols: &'a [i8],
    room: usize,
    allowance: u32,
    memory: usize,
    places: usize,
}

// Cases 4 to 9: one small block with the room and the allowance that it is given.
pub fn small(rt: &impl Print) -> io::Result<()> {
    for (name, room, allowance) in [
        ("4    ", 5, 3),
        ("5    ", 4, 3),
        ("6    ", 4, 2),
        ("7    ", 3, 2),
        ("8    ", 0, 3),
        ("     ", 0, 0),
        ("9    ", 1, 0),
    ] {
        Case::new(name, house(0), 1, &BLOCK, room, allowance).tried(rt)?;
    }
    Ok(())
}

// Cases 10 and 11, two blocks that are tied, and one of the heaviest symbols.
pub fn even(rt: &impl Print) -> io::Result<()> {
    for (name, symbols) in [
        ("10   ", [0; 6]),
        ("11   ", [-1, -1, 2, 9, 0, 0]),
        ("     ", [-128; 6]),
    ] {
        Case::new(name, house(0), 1, &symbols, 6, 5).tried(rt)?;
    }
    Ok(())
}

// Case 12, the longest message, the longest block and the longest memory of a code.
pub fn large(rt: &impl Print) -> io::Result<()> {
    let block = [-1, 1, -1, 1, 1, -1, 1, -1, -1, 1, 1, -1, -1, -1];
    let plus = [1; 864];
    for (name, code, length, symbols, room, allowance) in [
        ("12   ", house(0), 5, block.as_slice(), MOST, ALL),
        ("16   ", house(0), 200, &plus[..404], MOST, ALL),
        ("16   ", house(3), 1, &plus[..34], 34, 33),
        ("     ", wide(), 200, &plus, MOST, ALL),
    ] {
        Case::new(name, code, length, symbols, room, allowance).tried(rt)?;
    }
    Ok(())
}

// Lengths that are refused.
pub fn lengths(rt: &impl Print) -> io::Result<()> {
    let plus = [1; 406];
    for (name, length, symbols, room, allowance) in [
        ("16   ", 201, plus.as_slice(), MOST, ALL),
        ("     ", 0, &plus[..4], 5, 3),
        ("     ", 1, &plus[..7], 5, 3),
        ("     ", 1, &BLOCK[..5], 5, 3),
    ] {
        Case::new(name, house(0), length, symbols, room, allowance).tried(rt)?;
    }
    Ok(())
}

// Room and memory that are refused, and the least that is taken.
pub fn sizes(rt: &impl Print) -> io::Result<()> {
    for (name, code, length, room, memory, places) in [
        ("16   ", house(0), 1, 4097, WORDS, 1),
        ("     ", house(0), usize::MAX, usize::MAX, 15, 1),
        ("     ", house(4), 1, 5, 15, 1),
        ("     ", house(0), 1, 5, 14, 1),
        ("     ", house(0), 1, 5, 15, 0),
        ("     ", house(0), 1, 5, 15, 3),
    ] {
        let case = Case {
            memory,
            places,
            ..Case::new(name, code, length, &BLOCK, room, 3)
        };
        case.tried(rt)?;
    }
    Ok(())
}

impl<'a> Case<'a> {
    // With three words for each node that there is room for, and a place for each bit, one at least.
    fn new(
        name: &'a str,
        code: Code,
        length: usize,
        symbols: &'a [i8],
        room: usize,
        allowance: u32,
    ) -> Self {
        Case {
            name,
            code,
            length,
            symbols,
            room,
            allowance,
            memory: room.saturating_mul(WORDS_PER_NODE),
            places: length.max(1),
        }
    }

    // What goes in, the answer, and the message buffer as it is then.
    fn tried(&self, rt: &impl Print) -> io::Result<()> {
        let Case {
            name,
            code,
            length,
            symbols,
            room,
            allowance,
            memory,
            places,
        } = *self;
        let mut words = [7; WORDS];
        let mut bytes = [9; 1024];
        let (Some(work), Some(message)) = (words.get_mut(..memory), bytes.get_mut(..places)) else {
            return Ok(());
        };
        print!(rt;
            "{name}decode {} L={length} symbols{}",
            Rules(code),
            Symbols(symbols)
        )?;
        print!(rt; " R={room} B={allowance} words {memory}: ")?;
        match decode(code, length, symbols, room, allowance, work, message) {
            Ok(Found { metric, steps }) => print!(rt; "0 done, metric {metric}, steps {steps}")?,
            Err(refusal) => print!(rt; "{refusal}")?,
        }
        println!(rt; ", message {}", Start::new(message, 8))
    }
}

// A short block by its symbols, a long one by their number. (Not the list of `front_cases`, which shows every symbol.)
#[derive(Clone, Copy, Debug)]
struct Symbols<'a>(&'a [i8]);

impl fmt::Display for Symbols<'_> {
    fn fmt<W: fmt::Write>(&self, f: &mut fmt::Formatter<W>) -> fmt::Result {
        if 14 < self.0.len() {
            return write!(f, " {} times 1", self.0.len());
        }
        for symbol in self.0 {
            write!(f, " {symbol}")?;
        }
        Ok(())
    }
}

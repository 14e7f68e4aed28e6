// Decodes one announcement block from standard input and says what it found. The block is one byte for the house code's row (0 to 3),
// two bytes for L, low first, then the symbols, one signed byte each.
#![tactic(auto)]

mod say;

use codes::table::{Code, house};
use search::decoder::decode;
use std::io;
use store::WORDS_PER_NODE;

// More symbols than the longest block has, so that what is a little too long is refused by the decoder.
const SYMBOLS: usize = 1020;

// The row, L, the symbols, and a byte more, by which a longer block shows.
const INPUT: usize = 3 + SYMBOLS + 1;

// The room that working memory is lent for: 48 KiB.
const ROOM: usize = 2048;

const WORDS: usize = WORDS_PER_NODE * ROOM;

// As many steps as a call can be allowed.
const ALLOWANCE: u32 = u32::MAX;

fn main(rt: HostRuntime) -> io::Result<()> {
    let mut input = [0; INPUT];
    let block = fields::read_full(&mut rt.reader(), &mut input)?;
    let [row, low, high, symbols @ ..] = block else {
        return say::too_short(&rt);
    };
    let mut received = [0; SYMBOLS];
    let received = fields::symbols(symbols, &mut received);
    if received.len() < symbols.len() {
        return say::too_long(&rt);
    }
    let bits = u16::from_le_bytes([*low, *high]);
    decoded(&rt, house(usize::from(*row)), usize::from(bits), received)
}

fn decoded(rt: &impl Print, code: Code, bits: usize, symbols: &[i8]) -> io::Result<()> {
    let mut work = [0; WORDS];
    let mut message = [0; 1024];
    say::block(rt, code, bits, symbols.len())?;
    let answer = decode(
        code,
        bits,
        symbols,
        ROOM,
        ALLOWANCE,
        &mut work,
        &mut message,
    );
    let Ok(found) = answer else {
        return say::refused(rt, answer.unwrap_err());
    };
    if let Some(message) = message.get(..bits) {
        say::message(rt, message)?;
    }
    say::found(rt, found)
}

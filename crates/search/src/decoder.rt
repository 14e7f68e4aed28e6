// The decoder of symbols: its tests, and the block as it is seen, handed to the core.
ghost use Rattle.std.specs.Prelude.{◌≡◌, length as len};
ghost use Rattle.search.specs.Decoding.{told, sizes_fit, decoding};
ghost use Rattle.search.specs.Work.{Tests};

use crate::seen::{Found, decode_seen};
use blocks::view::see;
use codes::limits::{LONGEST_BLOCK, LONGEST_MESSAGE, SHORTEST_MESSAGE};
use codes::table::{Code, LawfulCode};
use desk::Refusal;
use store::WORDS_PER_NODE;

const LARGEST_ROOM: usize = 4096;

// Decodes a block: the message that alone has the least metric, or the refusal that node order says. On a refusal the message buffer
// is untouched. The working memory, three words a node, may be overwritten; no answer depends on what it held. (The parameters one by one,
// as C has them: with a struct of them the contract would read `block.now.symbols.now` for `symbols.now`, no plainer.)
pub fn decode(
    code: Code,
    length: usize,
    symbols: &[i8],
    room: usize,
    allowance: u32,
    work: &mut [u64],
    message: &mut [u8],
) -> Result<Found, Refusal>
    ensures { told result message.new
        ≡ decoding code length symbols.now room allowance (len work.old) message.old }
{
    let kept = tested(code, length, symbols.len(), room, work.len(), message.len())?;
    // Fixed memory, no heap: room for the longest block.
    let mut seen = [0u16; LONGEST_BLOCK];
    let block = see(kept, length, symbols, &mut seen);
    decode_seen(&block, room, allowance, work, message)
}

// The tests of a decode of symbols, with or without a sheet: the code, then all lengths.
pub fn tested(
    code: Code,
    length: usize,
    symbols: usize,
    room: usize,
    words: usize,
    message: usize,
) -> Result<LawfulCode, Refusal>
    ensures { Tests code length symbols room words message result }
{
    let kept = LawfulCode::new(code).ok_or(Refusal::BadCode)?;
    if !sizes_fit(kept, length, symbols, room, words, message) {
        return Err(Refusal::BadSize);
    }
    Ok(kept)
}

// Whether all lengths are as stated. Nothing is multiplied before it is tested. (Not one with the check's: each definition has its own sizes
// and its own order.)
fn sizes_fit(
    kept: LawfulCode,
    length: usize,
    symbols: usize,
    room: usize,
    words: usize,
    message: usize,
) -> bool
    ensures { result ≡ sizes_fit kept.code length symbols room words message }
{
    (SHORTEST_MESSAGE..=LONGEST_MESSAGE).contains(&length)
        && room <= LARGEST_ROOM
        && symbols == kept.block_length(length)
        && length <= message
        && WORDS_PER_NODE * room <= words
}

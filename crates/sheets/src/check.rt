// The check of a decision sheet for a block of symbols: its tests, and the block as it is seen, handed to the core.
ghost use Rattle.std.specs.Prelude.{◌≡◌};
ghost use Rattle.sheets.specs.Checking.{sizes_fit, told, checking};

use crate::seen::check_seen;
use blocks::view::see;
use codes::limits::{LONGEST_BLOCK, LONGEST_MESSAGE, SHORTEST_MESSAGE};
use codes::table::{Code, LawfulCode};
use desk::Refusal;

// Checks a sheet for a block and gives its metric: accepted, its message is the only one of least metric. On a refusal nothing is
// written. (The parameters one by one, as in `decode`.)
#[tactic(auto, using(codes::proofs::LawfulCodes::unlawful, codes::proofs::LawfulCodes::same_code), unfolding(desk::specs::Desk::told_by, desk::specs::Desk::refused, desk::specs::Desk::tested, crate::specs::Checking::check_desk, crate::specs::Checking::checking))]
pub fn check(
    code: Code,
    length: usize,
    symbols: &[i8],
    sheet: &[u8],
    message: &mut [u8],
) -> Result<u32, Refusal>
    ensures { told result message.new ≡ checking code length symbols.now sheet.now message.old }
{
    let kept = LawfulCode::new(code).ok_or(Refusal::BadCode)?;
    if !sizes_fit(kept, length, symbols.len(), message.len()) {
        return Err(Refusal::BadSize);
    }
    // Fixed memory, no heap: room for the longest block.
    let mut seen = [0u16; LONGEST_BLOCK];
    let block = see(kept, length, symbols, &mut seen);
    check_seen(&block, sheet, message)
}

// Whether L, the block and the message buffer have the sizes of a code.
#[tactic(auto, using(std::proofs::lemmas::Bool::Decides::nat_tests))]
fn sizes_fit(kept: LawfulCode, length: usize, symbols: usize, room: usize) -> bool
    ensures { result ≡ sizes_fit kept.code length symbols room }
{
    (SHORTEST_MESSAGE..=LONGEST_MESSAGE).contains(&length)
        && symbols == kept.block_length(length)
        && length <= room
}

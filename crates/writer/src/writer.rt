// The decoder of symbols that also writes the honest sheet: the tests of `decode`, and the block as it is seen, handed to the core.
ghost use Rattle.std.specs.Prelude.{◌≡◌, length as len};
ghost use Rattle.writer.specs.Sheeting.{told, sheeting};

use crate::seen::{FoundSheet, decode_sheet_seen};
use blocks::view::see;
use codes::limits::LONGEST_BLOCK;
use codes::table::Code;
use desk::Refusal;
use search::decoder::tested;

// Decodes a block and writes the honest sheet of its answer. On a refusal both buffers are untouched. The working memory may be overwritten;
// no answer depends on what it held. (The parameters one by one, as in `decode`.)
pub fn decode_sheet(
    code: Code,
    length: usize,
    symbols: &[i8],
    room: usize,
    allowance: u32,
    work: &mut [u64],
    message: &mut [u8],
    sheet: &mut [u8],
) -> Result<FoundSheet, Refusal>
    ensures { told result message.new sheet.new
        ≡ sheeting code length symbols.now room allowance (len work.old) message.old sheet.old }
{
    let kept = tested(code, length, symbols.len(), room, work.len(), message.len())?;
    // Fixed memory, no heap: room for the longest block.
    let mut seen = [0u16; LONGEST_BLOCK];
    let block = see(kept, length, symbols, &mut seen);
    decode_sheet_seen(&block, room, allowance, work, message, sheet)
}

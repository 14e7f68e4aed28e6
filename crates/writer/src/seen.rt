// The core: the decode of a block as it was seen, and its honest sheet, of whatever kind of block.
ghost use Rattle.std.specs.Prelude.{◌≡◌, true, ◌≤◌, length as len};
ghost use Rattle.std.proofs.lemmas.List.Edits.{sets};
ghost use Rattle.lists.specs.Lists.{all};
ghost use Rattle.codes.specs.Encoding.{is_bit};
ghost use Rattle.blocks.specs.Machines.{trellis_under};
ghost use Rattle.search.specs.Work.{Lent};
ghost use Rattle.sheets.specs.Bytes.{sheet_bytes};
ghost use Rattle.sheets.specs.Work.{Puttable};
ghost use Rattle.writer.specs.Work.{listed, Listable, sheet_of};
ghost use Rattle.writer.specs.Sheeting.{told, sheet_desk};

use crate::entries::put_entries;
use blocks::block::Block;
use desk::Refusal;
use search::seen::{Found, Settled, search_seen};
use search::trace::trace;
use sheets::put::{put_head, put_message, sheet_size};
use store::Nodes;

// What a decode with a sheet answers when both are written: what a decode does, and the sheet's bytes.
#[derive(Clone, Copy, Debug, PartialEq, Eq)]
pub struct FoundSheet {
    pub found: Found,
    pub bytes: u32,
}

// Decodes a block as it was seen, in memory that has words for the room, and writes the honest sheet of its answer: E + 1 entries, the
// closed rows and the terminal's. On a refusal both buffers are untouched.
pub fn decode_sheet_seen(
    block: &Block<'_>,
    room: usize,
    allowance: u32,
    work: &mut [u64],
    message: &mut [u8],
    sheet: &mut [u8],
) -> Result<FoundSheet, Refusal>
    requires lent { Lent room (len work.old) }
    requires buffer { block.now.bits ≤ len message.old }
    ensures { told result message.new sheet.new
        ≡ sheet_desk true true true (trellis_under block.now) room allowance message.old sheet.old }
{
    let mut nodes = Nodes::new(work);
    let outcome = search_seen(block, room, allowance, &mut nodes);
    // `let .. else` and no `?`: the form that document 01 asks for.
    let Ok(Settled { found, row }) = outcome else {
        return Err(outcome.unwrap_err());
    };
    let bits = block.bits as usize;
    let count = (found.steps as usize) + 1;
    let bytes = sheet_size(bits, count) as u32;
    if sheet.len() < bytes as usize {
        return Err(Refusal::NoSheetRoom { bytes });
    }
    trace(&nodes, block.top() as usize, row, bits, message);
    nodes.close(row);
    put_sheet(found.metric, count, &message[..bits], &nodes, sheet);
    Ok(FoundSheet { found, bytes })
}

// Writes a sheet over the front of the buffer: its metric, its message, and so many entries from the closed rows.
fn put_sheet(metric: u32, count: usize, bits: &[u8], nodes: &Nodes<'_>, sheet: &mut [u8])
    requires bits { all is_bit bits.now ≡ true }
    requires puttable { Puttable (len bits.now) count sheet.old }
    requires listable { Listable nodes.now.rows count 0 }
    ensures { sheet.new
        ≡ sets sheet.old 0 (sheet_bytes (len bits.now)
        (sheet_of metric bits.now (listed nodes.now.rows count 0))) }
{
    let span = bits.len();
    put_head(&mut *sheet, span, metric, count);
    put_message(&mut *sheet, bits);
    put_entries(nodes, count, sheet_size(span, 0), &mut *sheet);
}

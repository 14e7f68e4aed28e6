// The entries of the honest sheet, from the rows that the search left.
ghost use Rattle.std.specs.Prelude.{◌≡◌, ◌+◌, ◌*◌, ◌≤◌, length};
ghost use mathlib.Core.List.{flat_map};
ghost use Rattle.std.proofs.lemmas.List.Edits.{sets};
ghost use Rattle.sheets.specs.Bytes.{entry_bytes};
ghost use Rattle.writer.specs.Work.{listed, Listable};

use sheets::put::put_entry;
use store::Nodes;

// Puts so many entries from a place on: the origin's row, and each time the closed row whose node comes next.
pub fn put_entries(nodes: &Nodes<'_>, count: usize, place: usize, sheet: &mut [u8])
    requires listable { Listable nodes.now.rows count 0 }
    requires room { place + 8 * count ≤ length sheet.old }
    ensures { sheet.new
        ≡ sets sheet.old place (flat_map entry_bytes (listed nodes.now.rows count 0)) }
{
    let mut next = Some(0);
    for i in 0..count {
        let k = next.unwrap();
        let here = nodes.row(k);
        put_entry(
            &mut *sheet,
            place + 8 * i,
            here.level as u16,
            here.state as u16,
            here.cost as u32,
        );
        next = nodes.next_closed(k);
    }
}

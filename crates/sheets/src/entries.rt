// The entries of a sheet, eight bytes each, and what they say of a node.
ghost use Rattle.std.specs.Prelude.{◌≡◌, true};
ghost use Rattle.lists.specs.Lists.{all};
ghost use Rattle.trellis.specs.Trellis.{node};
ghost use Rattle.sheets.specs.Bytes.{sheet_read};
ghost use Rattle.sheets.specs.Checking.{rising, inside};
ghost use Rattle.sheets.specs.Work.{Counted, entries_in, entry_said, listed_cost};

use crate::bytes::bytes_at;
use crate::form::entries_place;

// A level and a state. Nodes compare by level, then state.
#[derive(Clone, Copy, Debug, PartialEq, Eq, PartialOrd, Ord)]
pub struct Node {
    pub level: u64,
    pub state: u64,
}

// A node and its cost.
#[derive(Clone, Copy, Debug, PartialEq, Eq)]
pub struct Entry {
    pub node: Node,
    pub cost: u32,
}

impl Entry {
    // The entry that eight bytes say. (`read`, as `Head::read`, which asks for its bytes and can be no `From`.)
    pub fn read(bytes: &[u8; 8]) -> Entry
        ensures { result ≡ entry_said bytes.now }
    {
        Entry {
            node: Node {
                level: u16::from_le_bytes(bytes_at(bytes, 0)) as u64,
                state: u16::from_le_bytes(bytes_at(bytes, 2)) as u64,
            },
            cost: u32::from_le_bytes(bytes_at(bytes, 4)),
        }
    }
}

// The entries of a sheet, each as its bytes.
#[tactic(auto, using(crate::proofs::Listing::entries_in_part))]
pub fn entries_of(length: usize, sheet: &[u8]) -> &[[u8; 8]]
    requires { Counted length sheet.now }
    ensures { entries_in result.now ≡ (sheet_read length sheet.now).entries }
{
    let place = entries_place(length);
    let (entries, _) = sheet[place..].as_chunks();
    entries
}

// Whether the entries rise strictly by level, then state.
pub fn rise(entries: &[[u8; 8]]) -> bool
    ensures { result ≡ rising (entries_in entries.now) }
{
    entries
        .iter()
        .is_sorted_by(|a, b| Entry::read(a).node < Entry::read(b).node)
}

// Whether every level is at most the top and every state below the number of states.
pub fn inside(entries: &[[u8; 8]], top: u64, states: u64) -> bool
    ensures { result ≡ all (inside top states) (entries_in entries.now) }
{
    entries.iter().all(|bytes| {
        let node = Entry::read(bytes).node;
        node.level <= top && node.state < states
    })
}

// The cost that the entries give a node, if it is listed.
pub fn listed(entries: &[[u8; 8]], sought: Node) -> Option<u32>
    requires { rising (entries_in entries.now) ≡ true }
    ensures { result ≡ listed_cost (entries_in entries.now) (node sought.level sought.state) }
{
    let place = entries
        .binary_search_by_key(&sought, |bytes| Entry::read(bytes).node)
        .ok()?;
    Some(Entry::read(&entries[place]).cost)
}

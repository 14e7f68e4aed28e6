// The claim of a sheet of good form: the conditions A to D, for a block as it was seen.
ghost use Rattle.codes.specs.Limits.{shortest_message};
ghost use Rattle.std.specs.Prelude.{◌≡◌, true, ◌+◌, ◌<◌, ◌≤◌, eqb, length};
ghost use Rattle.lists.specs.Lists.{all};
ghost use Rattle.trellis.specs.Trellis.{node, top, allowed};
ghost use Rattle.trellis.specs.Verdict.{entry};
ghost use Rattle.blocks.specs.Machines.{states_of, trellis_under};
ghost use Rattle.sheets.specs.Bytes.{series, sheet_read};
ghost use Rattle.sheets.specs.Checking.{inside, carried};
ghost use Rattle.sheets.specs.Work.{formed_for, entries_in, listed_cost, some_and, on_path, goes_on, clear, passing, all_passing, passes, Branching};

use crate::entries::{Entry, Node, entries_of, listed};
use crate::form::Head;
use blocks::block::Block;
use blocks::walk::{LONGEST_PATH, ORIGIN, Visit, walk};

// A block as it was seen, and what a sheet claims of it: the metric, the entries, and the visits of the message's path.
#[derive(Clone, Copy)]
struct Claim<'a> {
    block: Block<'a>,
    metric: u64,
    entries: &'a [[u8; 8]],
    path: &'a [Visit],
    ghost sound: { Branching (trellis_under block) (states_of block.machine) entries.now path.now },
}

impl Claim<'_> {
    // All tests of a claim. A is C at the origin.
    #[tactic(auto, using(std::proofs::lemmas::Bool::Decides::nat_tests), unfolding(crate::specs::Work::passes))]
    fn passes(&self) -> bool
        ensures { result ≡ passes (trellis_under self.now.block) (entries_in self.now.entries.now) self.now.metric self.now.path.now }
    {
        let top = self.block.top() as usize;
        self.path_listed() && self.path[top].metric == self.metric && self.entries_pass()
    }

    // C: whether each node of the path is listed, its cost the metric so far.
    fn path_listed(&self) -> bool
        ensures { result ≡ all (on_path (entries_in self.now.entries.now) self.now.path.now)
            (series (top (trellis_under self.now.block) + 1) (λ j. j)) }
    {
        self.path
            .iter()
            .enumerate()
            .all(|(level, visit)| self.is_listed(level as u64, *visit))
    }

    // Whether the node of a visit at a level is listed with just the visit's metric.
    fn is_listed(&self, level: u64, visit: Visit) -> bool
        ensures { result ≡ some_and (listed_cost (entries_in self.now.entries.now) (node level visit.state)) (λ c. eqb c visit.metric) }
    {
        let node = Node {
            level,
            state: visit.state,
        };
        listed(self.entries, node).is_some_and(|cost| cost as u64 == visit.metric)
    }

    // B and D for every branch of every entry.
    fn entries_pass(&self) -> bool
        ensures { result
            ≡ all (all_passing (trellis_under self.now.block) (entries_in self.now.entries.now)
            self.now.metric self.now.path.now) (entries_in self.now.entries.now) }
    {
        self.entries
            .iter()
            .all(|bytes| self.branches_pass(Entry::read(bytes)))
    }

    // B and D for every branch of an entry. Tried as `(0..inputs).all(..)`: the whole check took a quarter longer.
    #[tactic(auto, using(crate::proofs::Inputs::below_next, crate::proofs::Inputs::below_fails), unfolding(lists::specs::Lists::all, lists::specs::Lists::below, crate::specs::Work::all_passing))]
    fn branches_pass(&self, from: Entry) -> bool
        requires { inside (top (trellis_under self.now.block)) (states_of self.now.block.machine) (entry from.cost from.node.level from.node.state) ≡ true }
        ensures { result
            ≡ all_passing (trellis_under self.now.block) (entries_in self.now.entries.now)
            self.now.metric self.now.path.now (entry from.cost from.node.level from.node.state) }
    {
        let inputs = self.block.allowed(from.node.level);
        for input in 0..inputs {
            if !self.branch_passes(from, input) {
                return false;
            }
        }
        true
    }

    // B and D for the branch of an entry with an input.
    #[tactic(auto, using(blocks::proofs::Asked::input_below, crate::proofs::Inputs::inside_out))]
    fn branch_passes(&self, from: Entry, input: u64) -> bool
        requires inside { inside (top (trellis_under self.now.block)) (states_of self.now.block.machine) (entry from.cost from.node.level from.node.state) ≡ true }
        requires input { input < allowed (trellis_under self.now.block) from.node.level }
        ensures { result
            ≡ passing (trellis_under self.now.block) (entries_in self.now.entries.now)
            self.now.metric self.now.path.now (entry from.cost from.node.level from.node.state) input }
    {
        let Node { level, state } = from.node;
        let total = from.cost as u64 + self.block.price(level, state, input);
        let to = Node {
            level: level + 1,
            state: self.block.next(state, input),
        };
        self.goes_on(to, total) && self.stays_clear(from.node, to.state, total)
    }

    // B for a branch to a node at a cost in all, which may be any sum of two numbers of 32 bits.
    fn goes_on(&self, to: Node, total: u64) -> bool
        ensures { result ≡ goes_on (entries_in self.now.entries.now) self.now.metric (entry total to.level to.state) }
    {
        self.metric < total || listed(self.entries, to).is_some_and(|cost| cost as u64 <= total)
    }

    // D for a branch from a node to the next state, at a cost in all.
    fn stays_clear(&self, from: Node, next: u64, total: u64) -> bool
        requires { from.level + 1 < length self.now.path.now }
        ensures { result ≡ clear self.now.path.now from.level from.state next total }
    {
        let here = self.path[from.level as usize];
        let there = self.path[from.level as usize + 1];
        next != there.state || from.state == here.state || there.metric < total
    }
}

// Whether a sheet of good form carries its claim for a block, where the bits of its message were read.
pub fn carries(block: &Block<'_>, sheet: &[u8], message: &[u8]) -> bool
    requires some { shortest_message ≤ block.now.bits }
    requires form { formed_for block.now sheet.now ≡ true }
    requires own { message.now ≡ (sheet_read block.now.bits sheet.now).message }
    ensures { result ≡ carried (trellis_under block.now) (sheet_read block.now.bits sheet.now) }
{
    // Fixed memory, no heap: room for the longest path.
    let mut path = [ORIGIN; LONGEST_PATH];
    walk(block, message, &mut path);
    let top = block.top() as usize;
    let claim = Claim {
        block: *block,
        metric: Head::read(sheet).metric as u64,
        entries: entries_of(block.bits as usize, sheet),
        path: &path[..top + 1],
    };
    claim.passes()
}

// The run of the search.
ghost use Rattle.std.specs.Prelude.{◌≡◌, ◌<◌};
ghost use Rattle.trellis.specs.Trellis.{node, same};
ghost use Rattle.trellis.specs.Search.{searched};
ghost use Rattle.store.specs.Memory.{row_of};
ghost use Rattle.blocks.specs.Machines.{trellis_under};
ghost use Rattle.search.specs.Work.{cap, Lent, Halts};

use crate::step::expand;
use blocks::block::Block;
use desk::Refusal;
use store::{Held, Nodes};

// The terminal where the search ended: its cost, the steps until then, the count of its least paths, and its row.
#[derive(Clone, Copy, Debug, PartialEq, Eq)]
pub struct Terminal {
    pub metric: u64,
    pub steps: u32,
    pub count: u64,
    pub row: usize,
}

// Whether a row's node is the terminal: the last level, state 0. (Two numbers: a `Held` holds no node that could be compared whole.)
fn is_terminal(row: Held, last: u64) -> bool
    ensures { result ≡ same (row_of row).entry.node (node last 0) }
{
    row.level == last && row.state == 0
}

// The first open node is expanded, in node order, until it is the terminal, room is short or the allowance is spent. There is room
// for the origin.
pub fn run(
    block: &Block<'_>,
    nodes: &mut Nodes<'_>,
    room: usize,
    allowance: u32,
) -> Result<Terminal, Refusal>
    requires lent { Lent room nodes.old.words }
    requires some { 0 < room }
    ensures { Halts nodes.old nodes.new room result (searched (trellis_under block.now) cap room allowance) }
{
    nodes.start();
    let last = block.top();
    let mut steps = 0u32;
    // No `for` over the steps: after the last one allowed, the terminal is asked for once more.
    loop {
        // Some node is always open, since the terminal is never expanded.
        let i = nodes.first_open().unwrap();
        let first = nodes.row(i);
        if is_terminal(first, last) {
            return Ok(Terminal {
                metric: first.cost,
                steps,
                count: first.count,
                row: i,
            });
        }
        if steps == allowance {
            return Err(Refusal::NoAllowance { steps });
        }
        expand(block, nodes, room, i).map_err(|_| Refusal::NoRoom { steps })?;
        steps += 1;
    }
}

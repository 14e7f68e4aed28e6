// One branch, and one node with all of its branches.
ghost use Rattle.std.specs.Prelude.{◌≡◌, ◌<◌};
ghost use Rattle.trellis.specs.Trellis.{allowed};
ghost use Rattle.trellis.specs.Search.{node_at, find_row, first_open, entered, relax, expand};
ghost use Rattle.store.specs.Memory.{row_of, Small};
ghost use Rattle.blocks.specs.Machines.{trellis_under};
ghost use Rattle.search.specs.Work.{cap, Roomy, Leaving, Steppable, brought, Tries};

use blocks::block::Block;
use store::{Held, Nodes};

// Least paths are counted up to two.
const CAP: u64 = 2;

// A node more has no room.
#[derive(Clone, Copy, Debug, PartialEq, Eq)]
pub struct Full;

// Here and below `nodes` and `room` stay two parameters: a struct of both would only hold a `&mut` to be lent on at each call.

// An arrival entered: added if its node is new and there is room, lowered if it is cheaper, joined if it costs the same.
fn enter(nodes: &mut Nodes<'_>, room: usize, brought: Held) -> Result<(), Full>
    requires roomy { Roomy nodes.old room }
    requires small { Small brought }
    ensures { Tries nodes.old nodes.new room result
        (entered cap room nodes.old.rows (row_of brought) (find_row (row_of brought).entry.node nodes.old.rows)) }
{
    let Some(k) = nodes.find(brought.level, brought.state) else {
        if nodes.len() < room {
            nodes.add(brought);
            return Ok(());
        }
        return Err(Full);
    };
    let known = nodes.row(k);
    if brought.cost < known.cost {
        nodes.lower(k, brought);
    } else if brought.cost == known.cost {
        nodes.join(k, CAP, brought.count);
    }
    Ok(())
}

// What the branch with an input brings from a row to the node where it leads.
fn arrival(block: &Block<'_>, from: Held, i: usize, input: u64) -> Held
    requires { Leaving block.now from i input }
    ensures row { row_of result ≡ brought (trellis_under block.now) (row_of from) i input }
    ensures small { Small result }
{
    let cost = from.cost + block.price(from.level, from.state, input);
    let state = block.next(from.state, input);
    Held {
        cost,
        level: from.level + 1,
        state,
        count: from.count,
        parent: i as u64,
        input,
        closed: false,
    }
}

// The branch from row i with an input.
fn relax(
    block: &Block<'_>,
    nodes: &mut Nodes<'_>,
    room: usize,
    i: usize,
    input: u64,
) -> Result<(), Full>
    requires steppable { Steppable (trellis_under block.now) nodes.old room i }
    requires input_bound { input < allowed (trellis_under block.now) (node_at nodes.old.rows i).level }
    ensures { Tries nodes.old nodes.new room result (relax (trellis_under block.now) cap room i input nodes.old.rows) }
{
    let from = nodes.row(i);
    let brought = arrival(block, from, i, input);
    enter(nodes, room, brought)
}

// Row i closed, then all of its branches, up to the first that has no room.
pub fn expand(block: &Block<'_>, nodes: &mut Nodes<'_>, room: usize, i: usize) -> Result<(), Full>
    requires steppable { Steppable (trellis_under block.now) nodes.old room i }
    requires first { i ≡ first_open nodes.old.rows }
    ensures { Tries nodes.old nodes.new room result (expand (trellis_under block.now) cap room i nodes.old.rows) }
{
    let from = nodes.row(i);
    let inputs = block.allowed(from.level);
    nodes.close(i);
    for input in 0..inputs {
        relax(block, nodes, room, i, input)?;
    }
    Ok(())
}

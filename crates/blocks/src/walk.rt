// The path of a message, level by level.
ghost use Rattle.std.specs.Prelude.{◌≡◌, ◌<◌, ℕ, length, get_or};
ghost use Rattle.trellis.specs.Trellis.{top};
ghost use Rattle.blocks.specs.Machines.{trellis_under};
ghost use Rattle.blocks.specs.Walks.{Walked};

use crate::block::Block;
use codes::limits::MOST_BRANCHES;

// The nodes of the longest path: one for each branch, and the origin.
pub const LONGEST_PATH: usize = MOST_BRANCHES + 1;

// Where a path is at a level, and what it has cost so far.
#[derive(Clone, Copy, Debug, PartialEq, Eq)]
pub struct Visit {
    pub state: u64,
    pub metric: u64,
}

// Every path begins here.
pub const ORIGIN: Visit = Visit {
    state: 0,
    metric: 0,
};

// Writes the visits of a message's path, from the origin to the terminal. Behind the message's end its inputs are 0.
pub fn walk(block: &Block<'_>, message: &[u8], path: &mut [Visit])
    requires inputs { (i : ℕ) → get_or message.now i 0 < (trellis_under block.now).inputs }
    requires room { top (trellis_under block.now) < length path.old }
    ensures { Walked (trellis_under block.now) message.now (top (trellis_under block.now)) path.new }
{
    let top = block.top() as usize;
    let mut here = ORIGIN;
    path[0] = here;
    for level in 0..top {
        let input = input(message, level);
        here = Visit {
            state: block.next(here.state, input),
            metric: here.metric + block.price(level as u64, here.state, input),
        };
        path[level + 1] = here;
    }
}

// The input of a message at a level, and behind its end 0.
fn input(message: &[u8], level: usize) -> u64
    ensures { result ≡ get_or message.now level 0 }
{
    message.get(level).copied().unwrap_or(0) as u64
}

// The core: search and decode of a block as it was seen, of whatever kind of block. It sees no code and no symbol.
ghost use Rattle.std.specs.Prelude.{◌≡◌, ◌≤◌, length as len};
ghost use Rattle.trellis.specs.Verdict.{verdict};
ghost use Rattle.blocks.specs.Machines.{trellis_under};
ghost use Rattle.search.specs.Decoding.{told, given};
ghost use Rattle.search.specs.Work.{Lent, Searches};

use crate::run::{Terminal, run};
use crate::trace::trace;
use blocks::block::Block;
use desk::Refusal;
use store::Nodes;

// What a decode answers when the message is written: the least metric, and the steps that it took.
#[derive(Clone, Copy, Debug, PartialEq, Eq)]
pub struct Found {
    pub metric: u32,
    pub steps: u32,
}

// What a decode found before anything is written: its answer, and the row of the terminal.
#[derive(Clone, Copy, Debug, PartialEq, Eq)]
pub struct Settled {
    pub found: Found,
    pub row: usize,
}

// Decodes a block as it was seen, in memory that has words for the room: the message that alone has the least metric, or the refusal that
// node order says. On a refusal the message buffer is untouched.
pub fn decode_seen(
    block: &Block<'_>,
    room: usize,
    allowance: u32,
    work: &mut [u64],
    message: &mut [u8],
) -> Result<Found, Refusal>
    requires lent { Lent room (len work.old) }
    requires buffer { block.now.bits ≤ len message.old }
    ensures { told result message.new
        ≡ given (verdict (trellis_under block.now) room allowance) message.old }
{
    let mut nodes = Nodes::new(work);
    let Settled { found, row } = search_seen(block, room, allowance, &mut nodes)?;
    let bits = block.bits as usize;
    trace(&nodes, block.top() as usize, row, bits, message);
    Ok(found)
}

// The search over a block: the terminal if its least path is alone, else a tie. Where the message is found, `trace` writes it.
pub fn search_seen(
    block: &Block<'_>,
    room: usize,
    allowance: u32,
    nodes: &mut Nodes<'_>,
) -> Result<Settled, Refusal>
    requires { Lent room nodes.old.words }
    ensures { Searches (trellis_under block.now) room allowance nodes.old nodes.new result }
{
    if room == 0 {
        return Err(Refusal::NoRoom { steps: 0 });
    }
    let Terminal {
        metric,
        steps,
        count,
        row,
    } = run(block, nodes, room, allowance)?;
    let metric = metric as u32;
    if 1 < count {
        return Err(Refusal::Tied { metric, steps });
    }
    Ok(Settled {
        found: Found { metric, steps },
        row,
    })
}

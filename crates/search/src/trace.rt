// The trace from the terminal to the origin.
ghost use Rattle.std.specs.Prelude.{◌≡◌, ◌≤◌, length};
ghost use Rattle.trellis.specs.Search.{trace};
ghost use Rattle.search.specs.Work.{in_front, Traceable};

use store::Nodes;

// Writes the inputs on the way to row i at a level, one level lower each time; those of the tail, from level L on, are not
// written. Recursive: document 01 asks for this form.
pub fn trace(nodes: &Nodes<'_>, level: usize, i: usize, bits: usize, message: &mut [u8])
    requires traceable { Traceable nodes.now.rows level i }
    requires buffer { bits ≤ length message.old }
    ensures { message.new ≡ in_front bits level (trace nodes.now.rows level i) message.old }
{
    if level == 0 {
        return;
    }
    let here = nodes.row(i);
    let below = level - 1;
    if below < bits {
        message[below] = here.input as u8;
    }
    trace(nodes, below, here.parent as usize, bits, message);
}

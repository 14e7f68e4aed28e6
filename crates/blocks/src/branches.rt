// The branches of a block's trellis: how many leave a node, where each leads, and what it costs.
ghost use Rattle.std.specs.Prelude.{◌≡◌, ◌≤◌, ◌<◌, length as len, sum, map, zip};
ghost use Rattle.codes.specs.Limits.{most_outputs};
ghost use Rattle.codes.specs.Codes.{output_bit};
ghost use Rattle.trellis.specs.Trellis.{top, allowed};
ghost use Rattle.blocks.specs.Bounds.{heaviest};
ghost use Rattle.blocks.specs.Machines.{states_of, trellis_under};
ghost use Rattle.blocks.specs.Packed.{toll_of, greatest_price};

use crate::block::Block;
use codes::register::output_bit;

// In the tail, 'from level L on, only input 0 is allowed'.
const TAIL_INPUTS: u64 = 1;

#[tactic(auto, using(crate::proofs::Asked::input_one), unfolding(crate::specs::Machines::trellis_at))]
impl Block<'_> {
    // The level of the terminal.
    pub fn top(&self) -> u64
        ensures { result ≡ top (trellis_under self.now) }
    {
        self.bits + self.machine.memory as u64
    }

    // How many inputs a level allows: those of a step in the message, one in the tail, none at the top.
    pub fn allowed(&self, level: u64) -> u64
        ensures { result ≡ allowed (trellis_under self.now) level }
    {
        if level < self.bits {
            self.machine.inputs()
        } else if level < self.top() {
            TAIL_INPUTS
        } else {
            0
        }
    }

    // The state that a branch leads to.
    pub fn next(&self, state: u64, input: u64) -> u64
        requires state { state < states_of self.now.machine }
        requires input { input < (trellis_under self.now).inputs }
        ensures next { result ≡ (trellis_under self.now).next state input }
        ensures below { result < states_of self.now.machine }
    {
        self.machine.next(state, input)
    }

    // What a branch costs: the weights of its level's places whose hard bit its output differs from.
    pub fn price(&self, level: u64, state: u64, input: u64) -> u64
        requires level { level < top (trellis_under self.now) }
        requires state { state < states_of self.now.machine }
        requires input { input < (trellis_under self.now).inputs }
        ensures price { result ≡ (trellis_under self.now).price level state input }
        ensures light { result < heaviest }
        ensures most { result ≤ greatest_price }
    {
        let n = self.machine.outputs as usize;
        let generators = self.machine.generators;
        let seen = self.seen;
        let register = self.machine.with(state, input);
        let first = (level as usize) * n;
        distance(register, &generators[..n], &seen[first..first + n])
    }
}

// The distance of a branch's outputs from the numbers of its level.
fn distance(register: u32, generators: &[u32], seen: &[u16]) -> u64
    requires { len generators.now ≤ most_outputs }
    ensures { result ≡ sum (map (λ p. toll_of (output_bit register p.0) p.1) (zip generators.now seen.now)) }
{
    generators
        .iter()
        .zip(seen)
        .map(|(generator, place)| toll(output_bit(register, *generator), *place))
        .sum()
}

// What one place costs: its weight, unless the output is its hard bit.
fn toll(output: u8, seen: u16) -> u64
    ensures { result ≡ toll_of output seen }
{
    if output as u16 == seen % 2 {
        0
    } else {
        (seen / 2) as u64
    }
}

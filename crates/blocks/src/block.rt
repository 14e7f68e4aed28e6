// What a search is given: a machine, and a block as it was seen. (The types alone: what is said of their trellis stands with their methods,
// in machine.rt and branches.rt.)
ghost use Rattle.std.specs.Prelude.{◌≡◌, ℕ, ◌+◌, ◌*◌, ◌≤◌, ◌<◌, length, get_or};
ghost use Rattle.codes.specs.Limits.{most_outputs, least_memory, most_memory, longest_message};
ghost use Rattle.blocks.specs.Packed.{seen_limit};

// What a code comes to: input bits a branch, outputs n, memory m, and generators, of which the first n count. What its numbers keep is in
// its ghost fields; search and check pass it on and never look inside.
#[derive(Clone, Copy)]
pub struct Machine {
    pub inputs: u32,
    pub outputs: u32,
    pub memory: u32,
    pub generators: [u32; 4],
    ghost one: { inputs ≡ 1 },
    ghost outputs_few: { outputs ≤ most_outputs },
    ghost memory_some: { least_memory ≤ memory },
    ghost memory_few: { memory ≤ most_memory },
    ghost four: { length generators ≡ 4 },
}

// A block as it was seen: a machine, the bits of a message, and a number for each place of its codeword.
#[derive(Clone, Copy)]
pub struct Block<'a> {
    pub machine: Machine,
    pub bits: u64,
    pub seen: &'a [u16],
    ghost span: { bits ≤ longest_message },
    ghost full: { length seen.now ≡ machine.outputs * (bits + machine.memory) },
    ghost narrow: { (i : ℕ) → get_or seen.now i 0 < seen_limit },
}

impl<'a> Block<'a> {
    // The block of a machine and a length, by its numbers.
    pub fn new(machine: Machine, bits: u64, seen: &'a [u16]) -> Block<'a>
        requires span { bits ≤ longest_message }
        requires full { length seen.now ≡ machine.outputs * (bits + machine.memory) }
        requires narrow { (i : ℕ) → get_or seen.now i 0 < seen_limit }
        ensures machine { result.machine ≡ machine }
        ensures bits { result.bits ≡ bits }
        ensures seen { result.seen.now ≡ seen.now }
    {
        Block {
            machine,
            bits,
            seen,
        }
    }
}

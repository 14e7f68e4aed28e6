// The encoder's register and the output bit.
ghost use Rattle.std.specs.Prelude.{◌≡◌, ◌≤◌, ◌<◌, ◌^◌};
ghost use Rattle.codes.specs.Limits.{most_memory};
ghost use Rattle.codes.specs.Codes.{register_of, output_bit, next_state};

// The memory m and the state, a number below 2^m. That bound is no ghost field, since `Register::start` answers for every memory.
#[derive(Clone, Copy, Debug, PartialEq, Eq)]
pub struct Register {
    pub memory: u32,
    pub state: u32,
}

impl Register {
    // The state starts at 0.
    pub fn start(memory: u32) -> Register
        ensures { (result.memory ≡ memory) × (result.state ≡ 0) }
    {
        Register { memory, state: 0 }
    }

    // The register with the bit in front, as one number.
    pub fn with(self, bit: u8) -> u32
        requires { (self.memory ≤ most_memory) × (self.state < 2 ^ self.memory) × (bit ≤ 1) }
        ensures { result ≡ register_of self.memory bit self.state }
    {
        let memory = self.memory;
        (bit as u32) * (1u32 << memory) + self.state
    }

    // The next register: a value handed back after each bit.
    pub fn next(self, bit: u8) -> Register
        requires { (self.memory ≤ most_memory) × (self.state < 2 ^ self.memory) × (bit ≤ 1) }
        ensures { (result.memory ≡ self.memory) × (result.state ≡ next_state self.memory bit self.state) }
    {
        let halved = self.with(bit) / 2;
        Register {
            memory: self.memory,
            state: halved,
        }
    }
}

// The output bit, by walking the register: its low bits and the generator's are met pair by pair. (A `while`: no index is counted, and
// the walk ends with the register's last bit.)
pub fn output_bit(register: u32, generator: u32) -> u8
    ensures { result ≡ output_bit register generator }
{
    let mut left = register;
    let mut taps = generator;
    let mut odd: u32 = 0;
    while 0 < left {
        odd = (odd + (left % 2) * (taps % 2)) % 2;
        left = left / 2;
        taps = taps / 2;
    }
    odd as u8
}

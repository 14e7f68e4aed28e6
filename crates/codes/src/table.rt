// A code, the rules it must keep, and the four house codes.
ghost use Rattle.std.specs.Prelude.{◌≡◌, ◌≤◌, true, false, MatchOption, length};
ghost use Rattle.lists.specs.Lists.{all};
ghost use Rattle.codes.specs.Limits.{longest_message};
ghost use Rattle.codes.specs.Codes.{from, lawful, house_code, branches, block_length};

use crate::limits::{FEWEST_OUTPUTS, LEAST_MEMORY, MOST_MEMORY, MOST_OUTPUTS};

// n outputs, memory m, and room for four generators, of which the first n count. (An array with n beside: document 01 asks for the form, and
// a code with any n may be handed in.)
#[derive(Clone, Copy, Debug, PartialEq, Eq)]
pub struct Code {
    pub outputs: u32,
    pub memory: u32,
    pub generators: [u32; 4],
}

// A code that keeps the rules: whatever takes one need not ask.
#[derive(Clone, Copy)]
pub struct LawfulCode {
    pub code: Code,
    ghost rules: { lawful code ≡ true },
    ghost four: { length code.generators ≡ 4 },
}

impl LawfulCode {
    // A code that was tested: none where it is outside the rules.
    pub fn new(code: Code) -> Option<LawfulCode>
        ensures { MatchOption result (lawful code ≡ false) (λ kept. kept.code ≡ code) }
    {
        if keeps_rules(code) {
            Some(LawfulCode { code })
        } else {
            None
        }
    }

    // L+m: the branches of a message of so many bits.
    pub fn branches(self, bits: usize) -> usize
        requires { bits ≤ longest_message }
        ensures { result ≡ branches self.code bits }
    {
        bits + self.code.memory as usize
    }

    // N: the symbols of its block.
    #[tactic(auto, using(crate::proofs::Rules::block_short))]
    pub fn block_length(self, bits: usize) -> usize
        requires { bits ≤ longest_message }
        ensures { result ≡ block_length self.code bits }
    {
        self.code.outputs as usize * self.branches(bits)
    }
}

const HOUSE_CODES: [Code; 4] = [
    Code {
        outputs: 2,
        memory: 2,
        generators: [7, 5, 0, 0],
    },
    Code {
        outputs: 2,
        memory: 6,
        generators: [103, 93, 0, 0],
    },
    Code {
        outputs: 2,
        memory: 8,
        generators: [303, 493, 0, 0],
    },
    Code {
        outputs: 2,
        memory: 16,
        generators: [118025, 78583, 0, 0],
    },
];

// The code of zeros, which keeps no rule. (No `Option`: `house` answers a code for every row, as `house_code` says.)
const NO_CODE: Code = Code {
    outputs: 0,
    memory: 0,
    generators: [0, 0, 0, 0],
};

// The house code of a row, from 0 to 3; of any other row the code of zeros, which every operation refuses 1.
#[tactic(auto, unfolding(crate::specs::Codes::house_code, crate::specs::Codes::house_codes))]
pub fn house(row: usize) -> Code
    ensures { result ≡ house_code row }
{
    HOUSE_CODES.get(row).copied().unwrap_or(NO_CODE)
}

// Whether a code keeps the rules of the table. Nothing is shifted before it is tested.
#[tactic(auto, using(std::proofs::lemmas::Bool::Decides::nat_tests, crate::proofs::Registers::shifted), unfolding(crate::specs::Codes::lawful))]
pub fn keeps_rules(code: Code) -> bool
    ensures { result ≡ lawful code }
{
    (FEWEST_OUTPUTS..=MOST_OUTPUTS).contains(&code.outputs)
        && (LEAST_MEMORY..=MOST_MEMORY).contains(&code.memory)
        && generators_within(
            &code.generators[..code.outputs as usize],
            (2u32 << code.memory) - 1,
        )
}

// Whether each generator is from 1 to the greatest.
fn generators_within(generators: &[u32], greatest: u32) -> bool
    ensures { result ≡ all (from 1 greatest) generators.now }
{
    generators
        .iter()
        .all(|&generator| 1 <= generator && generator <= greatest)
}

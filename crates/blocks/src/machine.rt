// A machine: made of a code, its states and inputs, and where they lead.
ghost use Rattle.std.specs.Prelude.{◌≡◌, ◌<◌};
ghost use Rattle.codes.specs.Codes.{next_state, register_of};
ghost use Rattle.blocks.specs.Machines.{code_under, states_of, inputs_of};

use crate::block::Machine;
use codes::register::Register;
use codes::table::{Code, LawfulCode};

// The input bits that a branch of a code takes.
const ONE_INPUT: u32 = 1;

impl Machine {
    // The machine of a code.
    #[tactic(auto, using(codes::proofs::Rules::lawful_out))]
    pub fn of(kept: LawfulCode) -> Machine
        ensures { code_under result ≡ kept.code }
    {
        let Code {
            outputs,
            memory,
            generators,
        } = kept.code;
        Machine {
            inputs: ONE_INPUT,
            outputs,
            memory,
            generators,
        }
    }

    // How many states there are.
    pub fn states(self) -> u64
        ensures { result ≡ states_of self }
    {
        1u64 << (self.inputs * self.memory)
    }

    // How many inputs a step of the message has.
    pub fn inputs(self) -> u64
        ensures { result ≡ inputs_of self }
    {
        1u64 << self.inputs
    }

    // The register of a state with an input in front, as one number.
    pub fn with(self, state: u64, input: u64) -> u32
        requires state { state < states_of self }
        requires input { input < inputs_of self }
        ensures { result ≡ register_of self.memory input state }
    {
        self.register(state).with(input as u8)
    }

    // The state that a state and an input lead to. (A state by its bound and no type of its own: the bound is the machine's.)
    pub fn next(self, state: u64, input: u64) -> u64
        requires state { state < states_of self }
        requires input { input < inputs_of self }
        ensures next { result ≡ next_state self.memory input state }
        ensures below { result < states_of self }
    {
        let before = self.register(state);
        let after = before.next(input as u8);
        after.state as u64
    }

    // The register of a state.
    fn register(self, state: u64) -> Register
        requires { state < states_of self }
        ensures memory { result.memory ≡ self.memory }
        ensures state { result.state ≡ state }
    {
        Register {
            memory: self.memory,
            state: state as u32,
        }
    }
}

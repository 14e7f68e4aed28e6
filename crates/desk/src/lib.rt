// The desk says no: the refusals of every operation on a code and a block, one table. What each hands back is in specs/Desk.antt.
#![tactic(auto)]

ghost use Rattle.std.specs.Prelude.{◌≡◌};
ghost use Rattle.desk.specs.Desk.{refused};

use std::error::Error;
use std::fmt;

// A refusal, with the values that are handed back with it: the paper's numbers 1 to 7 and 9. (8 is the front end's own: it knows no code
// and no block.) One type for all operations: which of them an operation gives is said by its definition.
#[derive(Clone, Copy, Debug, PartialEq, Eq)]
pub enum Refusal {
    BadCode,
    BadSize,
    NoRoom { steps: u32 },
    NoAllowance { steps: u32 },
    Tied { metric: u32, steps: u32 },
    Malformed,
    NotCarried,
    NoSheetRoom { bytes: u32 },
}

impl fmt::Display for Refusal {
    fn fmt<W: fmt::Write>(&self, f: &mut fmt::Formatter<W>) -> fmt::Result {
        match self {
            Refusal::BadCode => write!(f, "1 code outside the rules"),
            Refusal::BadSize => write!(f, "2 a length not as stated"),
            Refusal::NoRoom { steps } => write!(f, "3 room, steps {steps}"),
            Refusal::NoAllowance { steps } => write!(f, "4 allowance, steps {steps}"),
            Refusal::Tied { metric, steps } => write!(f, "5 tied, metric {metric}, steps {steps}"),
            Refusal::Malformed => write!(f, "6 malformed"),
            Refusal::NotCarried => write!(f, "7 not carried"),
            Refusal::NoSheetRoom { bytes } => write!(f, "9 the sheet needs {bytes} bytes"),
        }
    }
}

impl Error for Refusal {}

impl Refusal {
    // The paper's number.
    #[tactic(auto, unfolding(crate::specs::Desk::refused))]
    pub fn number(self) -> u8
        ensures { result ≡ (refused self).number }
    {
        match self {
            Refusal::BadCode => 1,
            Refusal::BadSize => 2,
            Refusal::NoRoom { .. } => 3,
            Refusal::NoAllowance { .. } => 4,
            Refusal::Tied { .. } => 5,
            Refusal::Malformed => 6,
            Refusal::NotCarried => 7,
            Refusal::NoSheetRoom { .. } => 9,
        }
    }
}

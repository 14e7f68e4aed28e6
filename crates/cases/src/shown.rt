// What both tables print of what goes in and comes out.
use codes::table::Code;
use show::Digits;
use std::fmt;

// How many bytes of a long list are printed.
const SHOWN: usize = 24;

// A code by its numbers and its first two generators.
#[derive(Clone, Copy, Debug)]
pub struct Rules(pub Code);

impl fmt::Display for Rules {
    fn fmt<W: fmt::Write>(&self, f: &mut fmt::Formatter<W>) -> fmt::Result {
        let Code {
            outputs,
            memory,
            generators: [first, second, ..],
        } = self.0;
        write!(f, "n={outputs} m={memory} ({first}, {second})")
    }
}

// The first bytes as digits in groups; three dots for the rest.
#[derive(Clone, Copy, Debug)]
pub struct Start<'a>(Digits<'a>);

impl<'a> Start<'a> {
    pub fn new(bytes: &'a [u8], group: usize) -> Self {
        Start(Digits { bytes, group })
    }
}

impl fmt::Display for Start<'_> {
    fn fmt<W: fmt::Write>(&self, f: &mut fmt::Formatter<W>) -> fmt::Result {
        let Digits { bytes, group } = self.0;
        match bytes.split_at_checked(SHOWN) {
            Some((bytes, [_, ..])) => write!(f, "{}...", Digits { bytes, group }),
            _ => write!(f, "{}", self.0),
        }
    }
}

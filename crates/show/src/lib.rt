// What the programs' tables print that std has no format for: bits and small numbers as digits. Nothing here is promised but that each
// call is safe and ends; what a program prints is compared with its expected output.
#![tactic(auto)]

use std::fmt;

// Bytes as digits, a space before each further group; what is no digit is a '?'.
#[derive(Clone, Copy, Debug)]
pub struct Digits<'a> {
    pub bytes: &'a [u8],
    pub group: usize,
}

impl fmt::Display for Digits<'_> {
    fn fmt<W: fmt::Write>(&self, f: &mut fmt::Formatter<W>) -> fmt::Result {
        for (i, byte) in self.bytes.iter().enumerate() {
            if 0 < i && i.is_multiple_of(self.group) {
                write!(f, " ")?;
            }
            write!(f, "{}", digit(*byte))?;
        }
        Ok(())
    }
}

fn digit(x: u8) -> char {
    char::from_digit(u32::from(x), 10).unwrap_or('?')
}

// What is printed of an answer: decimal numbers with a space between, and checksums of buffers.
ghost use Rattle.std.specs.Iterator.{IsFinite};

use crate::record::Kind;
use plumtassel::{Answer, Report};
use std::fmt;
use std::num::f32_to_bits_with_nan;

// The kind, the answer and the checksum of the buffer that was written.
#[derive(Clone, Copy)]
pub struct Line {
    kind: Kind,
    told: Answer,
    sum: u32,
}

impl Line {
    pub fn new(kind: Kind, told: Answer, buffer: &[u8]) -> Line {
        let sum = checksum(buffer.iter().copied());
        Line { kind, told, sum }
    }
}

impl fmt::Display for Line {
    fn fmt<W: fmt::Write>(&self, f: &mut fmt::Formatter<W>) -> fmt::Result {
        let kind = self.kind as u8;
        let Answer {
            number,
            metric,
            steps,
            length,
        } = self.told;
        let sum = self.sum;
        write!(f, "{kind} {number} {metric} {steps} {length} {sum}")
    }
}

// The same of a report; floats by their bits. (All NaNs would show as one pattern, but none is ever handed back.)
#[derive(Clone, Copy)]
pub struct FrontLine {
    told: Report,
    sum: u32,
}

impl FrontLine {
    pub fn new(told: Report, symbols: &[i8]) -> FrontLine {
        let sum = checksum(symbols.iter().map(|symbol| symbol.cast_unsigned()));
        FrontLine { told, sum }
    }
}

impl fmt::Display for FrontLine {
    fn fmt<W: fmt::Write>(&self, f: &mut fmt::Formatter<W>) -> fmt::Result {
        let Report {
            number,
            count,
            index,
            lowest,
            highest,
        } = self.told;
        let lowest = f32_to_bits_with_nan(lowest);
        let highest = f32_to_bits_with_nan(highest);
        let sum = self.sum;
        write!(f, "5 {number} {count} {index} {lowest} {highest} {sum}")
    }
}

// Of all bytes: start with 1; for each multiply by 31 and add it; keep 32 bits.
pub fn checksum<I: Iterator<Item = u8> + Drop>(bytes: I) -> u32
    requires can { I.can_next bytes }
    requires ends { IsFinite (I.remaining bytes) }
{
    bytes.fold(1, |sum: u32, byte| {
        sum.wrapping_mul(31).wrapping_add(u32::from(byte))
    })
}

// The front end: document 01, 'From readings to symbols'. A block of readings goes through it to one symbol each; what `front` promises,
// for every bit pattern of every float, is the one equation of its contract.
#![tactic(auto)]

ghost use Rattle.std.specs.Prelude.{◌≡◌, ◌++◌, map, min, not, position, T, length, drop};
ghost use Rattle.std.specs.Float.{float_is_finite};
ghost use Rattle.std.specs.Float.Ieee.Scale.{finite};
ghost use Rattle.front.specs.Limits.{furthest};
ghost use Rattle.front.specs.Rounding.{nearest, rounded};
ghost use Rattle.front.specs.Symbols.{good_gain, good, symbol_of};
ghost use Rattle.front.specs.Reports.{updated, report_of};
ghost use Rattle.front.specs.Fronting.{told, fronting};
ghost use Rattle.front.specs.Work.{Convertible};

use std::error::Error;
use std::fmt;

// The limits of document 01: specs/Limits.antt has each by name.
const MOST_READINGS: usize = 864;

const FURTHEST: u32 = 127;

// A front end is one of three: a gain; an offset and a gain; or a bare threshold.
#[derive(Clone, Copy, Debug, PartialEq)]
pub enum FrontEnd {
    Gain(f32),
    Offset { offset: f32, gain: f32 },
    Threshold(f32),
}

// The lowest and the highest reading.
#[derive(Clone, Copy, Debug, PartialEq)]
pub struct Report {
    pub lowest: f32,
    pub highest: f32,
}

// What `front` hands back: the number of symbols written, and the report.
#[derive(Clone, Copy, Debug, PartialEq)]
pub struct Fronted {
    pub count: usize,
    pub report: Report,
}

// The paper's refusals 2, 6, 8.
#[derive(Clone, Copy, Debug, PartialEq, Eq)]
pub enum FrontError {
    BadSize,
    Malformed,
    NotFinite { index: usize },
}

impl fmt::Display for FrontError {
    fn fmt<W: fmt::Write>(&self, f: &mut fmt::Formatter<W>) -> fmt::Result {
        match self {
            FrontError::BadSize => write!(f, "2 a length not as stated"),
            FrontError::Malformed => write!(f, "6 malformed"),
            FrontError::NotFinite { index } => write!(
                f,
                "8 a reading is not finite, index {index}"
            ),
        }
    }
}

impl Error for FrontError {}

// A block of readings to symbols, one each at the start of `symbols`, with the report. On a refusal nothing is written.
#[tactic(auto, using(crate::proofs::Blocks::tested), unfolding(crate::specs::Fronting::told, crate::specs::Fronting::fronting))]
pub fn front(
    front_end: FrontEnd,
    readings: &[f32],
    symbols: &mut [i8],
) -> Result<Fronted, FrontError>
    ensures { told result symbols.new ≡ fronting front_end readings.now symbols.old }
{
    let count = readings.len();
    if count < 1 || MOST_READINGS < count || symbols.len() < count {
        return Err(FrontError::BadSize);
    }
    if !front_end.is_good() {
        return Err(FrontError::Malformed);
    }
    if let Some(index) = first_not_finite(readings) {
        return Err(FrontError::NotFinite { index });
    }
    let report = convert(front_end, readings, symbols);
    Ok(Fronted { count, report })
}

// Each reading's symbol and the report.
#[tactic(auto, using(crate::proofs::Blocks::block))]
fn convert(front_end: FrontEnd, readings: &[f32], symbols: &mut [i8]) -> Report
    requires { Convertible front_end readings.now symbols.old }
    ensures reported { result ≡ report_of readings.now }
    ensures written { symbols.new
        ≡ map (symbol_of front_end) readings.now ++ drop (length readings.now) symbols.old }
{
    let first = readings[0];
    let mut report = Report {
        lowest: first,
        highest: first,
    };
    // (The symbol by its index: of what is written through a zip of `symbols.iter_mut()` the proof learns nothing.)
    for (i, reading) in readings.iter().enumerate() {
        report = report.updated(*reading);
        symbols[i] = front_end.symbol(*reading);
    }
    report
}

// The index of the first reading that is not finite.
fn first_not_finite(readings: &[f32]) -> Option<usize>
    ensures { result ≡ position (λ x. not (float_is_finite x)) readings.now }
{
    readings.iter().position(|reading| !reading.is_finite())
}

impl Report {
    // The report after one more reading: of equal ones the first seen stays.
    // (Not `f32::min` and `f32::max`: of 0 and -0 these may give either, and `report_of` says that the first stays.)
    fn updated(self, reading: f32) -> Report
        ensures { result ≡ updated self reading }
    {
        let lowest = if reading < self.lowest {
            reading
        } else {
            self.lowest
        };
        let highest = if self.highest < reading {
            reading
        } else {
            self.highest
        };
        Report { lowest, highest }
    }
}

impl FrontEnd {
    // Whether its numbers are finite and its gain, if it has one, is above zero.
    #[tactic(auto, using(crate::proofs::Numbers::finite_is), unfolding(crate::specs::Symbols::good))]
    fn is_good(self) -> bool
        ensures { result ≡ good self }
    {
        match self {
            FrontEnd::Gain(gain) => is_good_gain(gain),
            FrontEnd::Offset { offset, gain } => offset.is_finite() && is_good_gain(gain),
            FrontEnd::Threshold(threshold) => threshold.is_finite(),
        }
    }

    // The symbol of one reading. No product is a NaN, since the numbers are finite and the gain is not zero.
    #[tactic(auto, using(crate::proofs::Numbers::products), unfolding(crate::specs::Symbols::good, crate::specs::Symbols::symbol_of))]
    fn symbol(self, reading: f32) -> i8
        requires front_good { T (good self) }
        requires reading_finite { T (finite reading) }
        ensures { result ≡ symbol_of self reading }
    {
        match self {
            FrontEnd::Gain(gain) => {
                let product = reading * gain;
                plumtassel_symbol_of_product(product.to_bits())
            }
            FrontEnd::Offset { offset, gain } => {
                let product = (reading - offset) * gain;
                plumtassel_symbol_of_product(product.to_bits())
            }
            FrontEnd::Threshold(threshold) => if threshold <= reading { 1 } else { -1 },
        }
    }
}

// Whether a gain is finite and above zero.
#[tactic(auto, using(crate::proofs::Numbers::finite_is))]
fn is_good_gain(gain: f32) -> bool
    ensures { result ≡ good_gain gain }
{
    gain.is_finite() && 0.0 < gain
}

// The symbol of a product with these bits. The crate `front_c` exports it, for a program in C or Rust that tries every bit pattern
// (second/rounding).
#[tactic(auto, unfolding(crate::specs::Rounding::rounded))]
pub fn plumtassel_symbol_of_product(bits: u32) -> i8
    ensures { result ≡ rounded bits }
{
    let near = distance(bits) as i8;
    if 0x8000_0000 <= bits { -near } else { near }
}

// How far from zero a product's symbol lies, from the product's bits: a field of 8 bits for the exponent above 23 digits.
// Below exponent 126 the product is less than a half, and above 133 it is 128 or more. Between them its significand, the digits
// behind their leading one, holds whole numbers above the last 150 - exponent places.
#[tactic(auto, using(crate::proofs::Rounding::ranges))]
fn distance(bits: u32) -> u32
    ensures { result ≡ min furthest (nearest bits) }
{
    let exponent = bits / 0x80_0000 % 256;
    if exponent < 126 {
        return 0;
    }
    if 133 < exponent {
        return FURTHEST;
    }
    let one = 1u32 << (150 - exponent);
    let significand = 0x80_0000 + bits % 0x80_0000;
    let whole = significand / one;
    let rest = significand % one;
    let near = if one <= 2 * rest { whole + 1 } else { whole };
    near.min(FURTHEST)
}

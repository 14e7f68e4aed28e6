// Document 01's case 15 and the edges of the floats, run through `front`: what went in, and what came out. Floats are shown by
// their bits. The symbol buffer has eight places, each 99 before the call, so that the untouched ones are seen.
#![tactic(auto)]

use front::{FrontEnd, FrontError, Fronted, Report};
use std::{fmt, io};

// A float, shown by its 32 bits in hexadecimal. A NaN has many patterns, so it is named.
#[derive(Clone, Copy)]
struct Bits(f32);

impl fmt::Display for Bits {
    fn fmt<W: fmt::Write>(&self, f: &mut fmt::Formatter<W>) -> fmt::Result {
        if self.0.is_nan() {
            return write!(f, "nan");
        }
        write!(f, "{:08x}", self.0.to_bits())
    }
}

// The readings, each after a space.
#[derive(Clone, Copy)]
struct Readings<'a>(&'a [f32]);

impl<'a> fmt::Display for Readings<'a> {
    fn fmt<W: fmt::Write>(&self, f: &mut fmt::Formatter<W>) -> fmt::Result {
        for reading in self.0 {
            write!(f, " {}", Bits(*reading))?;
        }
        Ok(())
    }
}

// The symbols, each after a space. (Not one generic with `Readings`: a reading is shown through `Bits`, and a slice of these would have to
// be made first.)
#[derive(Clone, Copy)]
struct Symbols<'a>(&'a [i8]);

impl<'a> fmt::Display for Symbols<'a> {
    fn fmt<W: fmt::Write>(&self, f: &mut fmt::Formatter<W>) -> fmt::Result {
        for symbol in self.0 {
            write!(f, " {symbol}")?;
        }
        Ok(())
    }
}

// What was asked for: a front end, by its form.
#[derive(Clone, Copy)]
struct Asked(FrontEnd);

impl fmt::Display for Asked {
    fn fmt<W: fmt::Write>(&self, f: &mut fmt::Formatter<W>) -> fmt::Result {
        match self.0 {
            FrontEnd::Gain(gain) => write!(f, "gain {}", Bits(gain)),
            FrontEnd::Offset { offset, gain } => write!(
                f,
                "offset {} gain {}",
                Bits(offset),
                Bits(gain)
            ),
            FrontEnd::Threshold(threshold) => write!(f, "threshold {}", Bits(threshold)),
        }
    }
}

// The answer: the paper's number and values, 0 where a refusal has none. (Numbers: what the program prints may not change.)
#[derive(Clone, Copy)]
struct Told(Result<Fronted, FrontError>);

impl fmt::Display for Told {
    fn fmt<W: fmt::Write>(&self, f: &mut fmt::Formatter<W>) -> fmt::Result {
        let none = Fronted {
            count: 0,
            report: Report {
                lowest: 0.0,
                highest: 0.0,
            },
        };
        let (number, index, Fronted { count, report }) = match self.0 {
            Ok(fronted) => (0, 0, fronted),
            Err(FrontError::BadSize) => (2, 0, none),
            Err(FrontError::Malformed) => (6, 0, none),
            Err(FrontError::NotFinite { index }) => (8, index, none),
        };
        let lowest = Bits(report.lowest);
        let highest = Bits(report.highest);
        write!(
            f,
            "{number} count {count} index {index} lowest {lowest} highest {highest}"
        )
    }
}

// One case: its name, what goes in, and what comes out.
fn run(rt: &impl Print, name: &str, front_end: FrontEnd, readings: &[f32]) -> io::Result<()> {
    let mut symbols = [99i8; 8];
    let told = Told(front::front(front_end, readings, &mut symbols));
    println!(rt;
        "{name}\n  in   {}; readings{}",
        Asked(front_end),
        Readings(readings)
    )?;
    println!(rt; "  out  {told}; symbols{}", Symbols(&symbols))
}

// Halves go away from zero; the floats next below them do not.
fn halves(rt: &impl Print) -> io::Result<()> {
    let above = [0.5f32, 1.5, 126.5, 127.5];
    run(rt, "gain 1: halves", FrontEnd::Gain(1.0), &above)?;
    let below = [-0.5f32, -1.5, -126.5, -127.5];
    run(rt, "gain 1: halves below zero", FrontEnd::Gain(1.0), &below)?;
    let short = [0.49999997f32, 1.4999999, 126.49999, 127.49999];
    run(
        rt,
        "gain 1: next nearer to zero than a half",
        FrontEnd::Gain(1.0),
        &short,
    )?;
    let short_below = [-0.49999997f32, -1.4999999, -126.49999, -127.49999];
    run(
        rt,
        "gain 1: next nearer to zero than a half, below zero",
        FrontEnd::Gain(1.0),
        &short_below,
    )?;
    let long_below = [-0.50000006f32, -1.5000001, -126.50001, -127.50001];
    run(
        rt,
        "gain 1: next farther from zero than a half, below zero",
        FrontEnd::Gain(1.0),
        &long_below,
    )
}

// Of equal readings the first seen stays in the report, so the sign of a zero is that of the first.
fn zeros(rt: &impl Print) -> io::Result<()> {
    let plus_first = [0.0f32, -0.0];
    run(rt, "gain 1: 0, -0", FrontEnd::Gain(1.0), &plus_first)?;
    let minus_first = [-0.0f32, 0.0];
    run(rt, "gain 1: -0, 0", FrontEnd::Gain(1.0), &minus_first)?;
    let among = [5.0f32, -0.0, 0.0, 5.0];
    run(rt, "gain 1: 5, -0, 0, 5", FrontEnd::Gain(1.0), &among)
}

// Products and differences past the largest float and below the smallest.
fn extremes(rt: &impl Print) -> io::Result<()> {
    let largest = [3.4028235e38f32, -3.4028235e38];
    run(
        rt,
        "gain largest: largest, -largest",
        FrontEnd::Gain(3.4028235e38),
        &largest,
    )?;
    let smallest = [1e-45f32, -1e-45];
    run(
        rt,
        "gain smallest: smallest, -smallest",
        FrontEnd::Gain(1e-45),
        &smallest,
    )?;
    let low = FrontEnd::Offset {
        offset: -3.4028235e38,
        gain: 1e-45,
    };
    run(
        rt,
        "offset -largest, gain smallest: largest, -largest",
        low,
        &largest,
    )?;
    let high = FrontEnd::Offset {
        offset: 3.4028235e38,
        gain: 1e-45,
    };
    run(
        rt,
        "offset largest, gain smallest: largest, -largest",
        high,
        &largest,
    )
}

// An offset is taken off before the gain; a threshold gives 1 at itself and above.
fn offset_and_threshold(rt: &impl Print) -> io::Result<()> {
    let around_ten = [10.0f32, 10.25, 9.75, 73.5, -53.5];
    let ten = FrontEnd::Offset {
        offset: 10.0,
        gain: 2.0,
    };
    run(
        rt,
        "offset 10, gain 2: 10, 10.25, 9.75, 73.5, -53.5",
        ten,
        &around_ten,
    )?;
    let around_half = [1.5f32, 1.4999999, 1.5000001, -3.0];
    run(
        rt,
        "threshold 1.5: 1.5, next below, next above, -3",
        FrontEnd::Threshold(1.5),
        &around_half,
    )?;
    let around_zero = [-0.0f32, 0.0, 1e-45, -1e-45];
    run(
        rt,
        "threshold 0: -0, 0, smallest, -smallest",
        FrontEnd::Threshold(0.0),
        &around_zero,
    )
}

// Refusal 6: a number of the front end is not finite, or a gain is not above zero.
fn bad_front_ends(rt: &impl Print) -> io::Result<()> {
    let one = [1.0f32];
    let bad = f32::NAN;
    run(rt, "gain NaN", FrontEnd::Gain(bad), &one)?;
    run(rt, "gain infinite", FrontEnd::Gain(f32::INFINITY), &one)?;
    run(rt, "gain 0", FrontEnd::Gain(0.0), &one)?;
    run(rt, "gain -0", FrontEnd::Gain(-0.0), &one)?;
    run(rt, "gain -1", FrontEnd::Gain(-1.0), &one)?;
    let bad_offset = FrontEnd::Offset {
        offset: bad,
        gain: 1.0,
    };
    run(rt, "offset NaN, gain 1", bad_offset, &one)?;
    let bad_gain = FrontEnd::Offset {
        offset: 1.0,
        gain: bad,
    };
    run(rt, "offset 1, gain NaN", bad_gain, &one)?;
    let no_gain = FrontEnd::Offset {
        offset: 1.0,
        gain: 0.0,
    };
    run(rt, "offset 1, gain 0", no_gain, &one)?;
    run(rt, "threshold NaN", FrontEnd::Threshold(bad), &one)
}

// Refusal 8: the first reading that is not finite.
fn bad_readings(rt: &impl Print) -> io::Result<()> {
    let second = [1.0f32, f32::NAN, f32::INFINITY];
    run(rt, "gain 1: 1, NaN, infinite", FrontEnd::Gain(1.0), &second)?;
    let last = [1.0f32, 2.0, f32::NEG_INFINITY];
    run(
        rt,
        "threshold 0: 1, 2, -infinite",
        FrontEnd::Threshold(0.0),
        &last,
    )?;
    run(
        rt,
        "gain NaN and a reading NaN: the front end first",
        FrontEnd::Gain(f32::NAN),
        &second,
    )
}

// Refusal 2: no reading, more than a block, or more readings than places.
fn bad_sizes(rt: &impl Print) -> io::Result<()> {
    let many = [1.0f32; 9];
    run(
        rt,
        "gain NaN, no reading: the size first",
        FrontEnd::Gain(f32::NAN),
        &many[..0],
    )?;
    run(
        rt,
        "gain 1, eight readings for eight places",
        FrontEnd::Gain(1.0),
        &many[..8],
    )?;
    run(
        rt,
        "gain 1, nine readings for eight places",
        FrontEnd::Gain(1.0),
        &many,
    )
}

// The longest block and one reading more.
fn longest(rt: &impl Print) -> io::Result<()> {
    let readings = [1.0f32; 865];
    let mut symbols = [99i8; 865];
    let gain = FrontEnd::Gain(1.0);
    let told = Told(front::front(gain, &readings[..864], &mut symbols));
    println!(rt; "gain 1, 864 readings\n  out  {told}")?;
    let told = Told(front::front(gain, &readings, &mut symbols));
    println!(rt; "gain 1, 865 readings\n  out  {told}")
}

fn main(rt: HostRuntime) -> io::Result<()> {
    let fifteen = [0.25f32, -0.25, 63.0, 63.25, 1000.0];
    run(
        &rt,
        "case 15, gain 2: 0.25, -0.25, 63, 63.25, 1000",
        FrontEnd::Gain(2.0),
        &fifteen,
    )?;
    halves(&rt)?;
    zeros(&rt)?;
    extremes(&rt)?;
    offset_and_threshold(&rt)?;
    bad_front_ends(&rt)?;
    bad_readings(&rt)?;
    bad_sizes(&rt)?;
    longest(&rt)
}

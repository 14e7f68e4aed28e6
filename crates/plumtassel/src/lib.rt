// The C face: one function for each operation, thin. It takes the caller's structs apart, calls the operation and puts the answer
// together; what it promises is the operation's own definition. The crate `plumtassel_c` exports these functions to C, and
// include/plumtassel.h declares them there. (Parameters that travel together stay apart: C interface.)
#![tactic(auto)]

ghost use Rattle.std.specs.Prelude.{◌≡◌, length as len};
ghost use Rattle.desk.specs.Desk.{numbered, refused};
ghost use Rattle.codes.specs.Codes.{house_code};
ghost use Rattle.codes.specs.Encoding.{encoding};
ghost use Rattle.search.specs.Decoding.{found as reply_of, decoding};
ghost use Rattle.sheets.specs.Checking.{checking};
ghost use Rattle.writer.specs.Sheeting.{sheeting};
ghost use Rattle.plumtassel.specs.Face.{face_code, code_of, answer_of, faced};
ghost use Rattle.plumtassel.specs.Fronts.{struct_fronting, reported};
ghost use Rattle.plumtassel.specs.Choices.{choice};

use codes::encoder::encode;
use codes::table::house;
use desk::Refusal;
use front::{FrontError, Fronted, front};
use search::decoder::decode;
use search::seen::Found;
use sheets::check::check;
use writer::seen::FoundSheet;
use writer::writer::decode_sheet;

// n outputs, memory m, and room for four generators, of which the first n count. (A twin of the table's own `Code`, laid out as C does: C
// interface.)
#[repr(C)]
#[derive(Clone, Copy)]
pub struct Code {
    pub outputs: u32,
    pub memory: u32,
    pub generators: [u32; 4],
}

// What an operation hands back: the paper's number, then the metric, the steps and a length; what has no meaning there is 0.
// (A number and values in place of a `Result`: C interface.)
#[repr(C)]
#[derive(Clone, Copy, Default)]
pub struct Answer {
    pub number: u32,
    pub metric: u32,
    pub steps: u32,
    pub length: u32,
}

// A front end: the form, and the numbers of all forms. Those that the form lacks are ignored.
// (A number of the form in place of an enum: C interface.)
#[repr(C)]
#[derive(Clone, Copy)]
pub struct FrontEnd {
    pub form: u32,
    pub offset: f32,
    pub gain: f32,
    pub threshold: f32,
}

// What the front end hands back: the paper's number, how many symbols were written, the index of a reading that is not finite, and the
// report. (A number and values in place of a `Result`: C interface.)
#[repr(C)]
#[derive(Clone, Copy, Default)]
pub struct Report {
    pub number: u32,
    pub count: u32,
    pub index: u32,
    pub lowest: f32,
    pub highest: f32,
}

// The house code of a row, from 0 to 3; of any other row the code of zeros, which every operation refuses 1.
pub fn plumtassel_house(row: usize) -> Code
    ensures { result ≡ face_code (house_code row) }
{
    house(row).into()
}

// Encodes a message of bits, one a byte, with the zero tail.
#[tactic(auto, using(codes::proofs::Rules::block_short), unfolding(desk::specs::Desk::told_by, desk::specs::Desk::tested, codes::specs::Encoding::encoding))]
pub fn plumtassel_encode(code: Code, message: &[u8], out: &mut [u8]) -> Answer
    ensures { (result, out.new) ≡ faced (encoding (code_of code) message.now out.old) }
{
    match encode(code.into(), message, out) {
        Ok(symbols) => Answer {
            length: symbols as u32,
            ..Answer::default()
        },
        Err(why) => why.into(),
    }
}

// Decodes a block: the message that alone has the least metric, or the refusal that node order says. Of the working memory only its size
// counts.
#[tactic(auto, unfolding(desk::specs::Desk::told_by))]
pub fn plumtassel_decode(
    code: Code,
    length: usize,
    symbols: &[i8],
    room: usize,
    allowance: u32,
    work: &mut [u64],
    message: &mut [u8],
) -> Answer
    ensures { (result, message.new)
        ≡ faced (decoding (code_of code) length symbols.now room allowance (len work.old) message.old) }
{
    match decode(code.into(), length, symbols, room, allowance, work, message) {
        Ok(found) => found.into(),
        Err(why) => why.into(),
    }
}

// The same, and the honest sheet of the answer.
#[tactic(auto, unfolding(desk::specs::Desk::told_by))]
pub fn plumtassel_decode_sheet(
    code: Code,
    length: usize,
    symbols: &[i8],
    room: usize,
    allowance: u32,
    work: &mut [u64],
    message: &mut [u8],
    sheet: &mut [u8],
) -> Answer
    ensures { (result, (message.new, sheet.new))
        ≡ faced (sheeting (code_of code) length symbols.now room allowance (len work.old) message.old sheet.old) }
{
    match decode_sheet(
        code.into(),
        length,
        symbols,
        room,
        allowance,
        work,
        message,
        sheet,
    ) {
        Ok(FoundSheet { found, bytes }) => Answer {
            length: bytes,
            ..found.into()
        },
        Err(why) => why.into(),
    }
}

// Checks a sheet for a block: accepted, its message is the only one of least metric.
#[tactic(auto, unfolding(desk::specs::Desk::told_by))]
pub fn plumtassel_check(
    code: Code,
    length: usize,
    symbols: &[i8],
    sheet: &[u8],
    message: &mut [u8],
) -> Answer
    ensures { (result, message.new)
        ≡ faced (checking (code_of code) length symbols.now sheet.now message.old) }
{
    match check(code.into(), length, symbols, sheet, message) {
        Ok(least) => Answer {
            metric: least,
            ..Answer::default()
        },
        Err(why) => why.into(),
    }
}

// A block of readings to symbols, one each, with the report.
#[tactic(auto, using(crate::proofs::Front::zero_gain), unfolding(front::specs::Fronting::told, front::specs::Fronting::fronting, crate::specs::Fronts::struct_fronting))]
pub fn plumtassel_front(front_end: FrontEnd, readings: &[f32], symbols: &mut [i8]) -> Report
    ensures { (result, symbols.new) ≡ reported (struct_fronting front_end readings.now symbols.old) }
{
    match front(front_end.into(), readings, symbols) {
        Ok(Fronted { count, report }) => Report {
            count: count as u32,
            lowest: report.lowest,
            highest: report.highest,
            ..Report::default()
        },
        // (Here and not in a `From<FrontError>`: that the index fits its 32 bits is known only here.)
        Err(FrontError::BadSize) => Report {
            number: 2,
            ..Report::default()
        },
        Err(FrontError::Malformed) => Report {
            number: 6,
            ..Report::default()
        },
        Err(FrontError::NotFinite { index }) => Report {
            number: 8,
            index: index as u32,
            ..Report::default()
        },
    }
}

// The caller's code as the operations take it.
impl From<Code> for codes::table::Code {
    ghost from_gives = { λ code inner. inner ≡ code_of code };

    fn from(code: Code) -> codes::table::Code {
        let Code {
            outputs,
            memory,
            generators,
        } = code;
        codes::table::Code {
            outputs,
            memory,
            generators,
        }
    }
}

// And back.
impl From<codes::table::Code> for Code {
    ghost from_gives = { λ code outer. outer ≡ face_code code };

    fn from(code: codes::table::Code) -> Code {
        let codes::table::Code {
            outputs,
            memory,
            generators,
        } = code;
        Code {
            outputs,
            memory,
            generators,
        }
    }
}

// What a decode found, as the caller takes it.
impl From<Found> for Answer {
    ghost from_gives = { λ found answer. answer ≡ answer_of (reply_of found) };

    fn from(found: Found) -> Answer {
        Answer {
            metric: found.metric,
            steps: found.steps,
            ..Answer::default()
        }
    }
}

// A refusal of any operation but the front end.
#[tactic(auto, unfolding(desk::specs::Desk::refused))]
impl From<Refusal> for Answer {
    ghost from_gives = { λ why answer. answer ≡ answer_of (refused why) };

    fn from(why: Refusal) -> Answer {
        match why {
            Refusal::BadCode => numbered(1),
            Refusal::BadSize => numbered(2),
            Refusal::NoRoom { steps } => Answer {
                steps,
                ..numbered(3)
            },
            Refusal::NoAllowance { steps } => Answer {
                steps,
                ..numbered(4)
            },
            Refusal::Tied { metric, steps } => Answer {
                metric,
                steps,
                ..numbered(5)
            },
            Refusal::Malformed => numbered(6),
            Refusal::NotCarried => numbered(7),
            Refusal::NoSheetRoom { bytes } => Answer {
                length: bytes,
                ..numbered(9)
            },
        }
    }
}

// A number with no values.
fn numbered(number: u32) -> Answer
    ensures { result ≡ answer_of (numbered number) }
{
    Answer {
        number,
        ..Answer::default()
    }
}

// The front end of a form. A form above 2 becomes a gain of zero, which is refused 6 at the same place. (No `TryFrom`: the sizes are
// refused first, as `struct_fronting` says.)
impl From<FrontEnd> for front::FrontEnd {
    ghost from_gives = { λ front_end chosen. chosen ≡ choice front_end };

    fn from(front_end: FrontEnd) -> front::FrontEnd {
        match front_end.form {
            0 => front::FrontEnd::Gain(front_end.gain),
            1 => front::FrontEnd::Offset {
                offset: front_end.offset,
                gain: front_end.gain,
            },
            2 => front::FrontEnd::Threshold(front_end.threshold),
            _ => front::FrontEnd::Gain(0.0),
        }
    }
}

// The C face as C calls it: a static library whose exported functions call those of the same names in `plumtassel` and state their
// clauses again (twins, since only a static library exports: C interface). include/plumtassel.h declares them for C.
#![tactic(auto)]

ghost use Rattle.std.specs.Prelude.{◌≡◌, length as len};
ghost use Rattle.codes.specs.Codes.{house_code};
ghost use Rattle.codes.specs.Encoding.{encoding};
ghost use Rattle.search.specs.Decoding.{decoding};
ghost use Rattle.sheets.specs.Checking.{checking};
ghost use Rattle.writer.specs.Sheeting.{sheeting};
ghost use Rattle.plumtassel.specs.Face.{face_code, code_of, faced};
ghost use Rattle.plumtassel.specs.Fronts.{struct_fronting, reported};

use plumtassel::{Answer, Code, FrontEnd, Report};

// The house code of a row, from 0 to 3; of any other row the code of zeros, which every operation refuses 1.
#[unsafe(no_mangle)]
pub extern "C" fn plumtassel_house(row: usize) -> Code
    ensures { result ≡ face_code (house_code row) }
{
    plumtassel::plumtassel_house(row)
}

// Encodes a message of bits, one a byte, with the zero tail.
#[unsafe(no_mangle)]
pub extern "C" fn plumtassel_encode(code: Code, message: &[u8], out: &mut [u8]) -> Answer
    ensures { (result, out.new) ≡ faced (encoding (code_of code) message.now out.old) }
{
    plumtassel::plumtassel_encode(code, message, out)
}

// Decodes a block: the message that alone has the least metric, or the refusal that node order says. Of the working memory only its size
// counts.
#[unsafe(no_mangle)]
pub extern "C" fn plumtassel_decode(
    code: Code,
    length: usize,
    symbols: &[i8],
    room: usize,
    allowance: u32,
    work: &mut [u64],
    message: &mut [u8],
) -> Answer
    ensures { (result, message.new)
        ≡ faced (decoding (code_of code) length symbols.now room allowance (len work.old) message.old) }
{
    plumtassel::plumtassel_decode(code, length, symbols, room, allowance, work, message)
}

// The same, and the honest sheet of the answer.
#[unsafe(no_mangle)]
pub extern "C" fn plumtassel_decode_sheet(
    code: Code,
    length: usize,
    symbols: &[i8],
    room: usize,
    allowance: u32,
    work: &mut [u64],
    message: &mut [u8],
    sheet: &mut [u8],
) -> Answer
    ensures { (result, (message.new, sheet.new))
        ≡ faced (sheeting (code_of code) length symbols.now room allowance (len work.old) message.old sheet.old) }
{
    plumtassel::plumtassel_decode_sheet(
        code, length, symbols, room, allowance, work, message, sheet,
    )
}

// Checks a sheet for a block: accepted, its message is the only one of least metric.
#[unsafe(no_mangle)]
pub extern "C" fn plumtassel_check(
    code: Code,
    length: usize,
    symbols: &[i8],
    sheet: &[u8],
    message: &mut [u8],
) -> Answer
    ensures { (result, message.new)
        ≡ faced (checking (code_of code) length symbols.now sheet.now message.old) }
{
    plumtassel::plumtassel_check(code, length, symbols, sheet, message)
}

// A block of readings to symbols, one each, with the report.
#[unsafe(no_mangle)]
pub extern "C" fn plumtassel_front(
    front_end: FrontEnd,
    readings: &[f32],
    symbols: &mut [i8],
) -> Report
    ensures { (result, symbols.new) ≡ reported (struct_fronting front_end readings.now symbols.old) }
{
    plumtassel::plumtassel_front(front_end, readings, symbols)
}

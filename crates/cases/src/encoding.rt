// The blocks to try that concern the encoder. A buffer is filled with 9s before each call, so that what is untouched shows.
use crate::shown::{Rules, Start};
use codes::encoder::encode;
use codes::table::{Code, house};
use std::io;

// Answered: cases 1 to 3, the longest message, the longest block, every house code.
pub fn answered(rt: &impl Print) -> io::Result<()> {
    let long = [1; 200];
    for (name, code, message, room) in [
        ("1    ", house(0), b"\x01".as_slice(), 6),
        ("2    ", house(0), b"\x00", 6),
        ("3    ", house(0), b"\x01\x01\x01\x00\x01", 14),
        ("     ", house(0), b"\x01\x01\x01\x00\x01", 17),
        ("     ", house(1), b"\x01", 14),
        ("     ", house(2), b"\x01", 18),
        ("16   ", house(3), b"\x01", 34),
        ("16   ", house(0), &long, 404),
        ("     ", wide(), &long, 864),
    ] {
        tried(rt, name, code, message, room)?;
    }
    Ok(())
}

// Refused: each rule of the code table, each length, a byte that is no bit, and which refusal comes first.
pub fn refused(rt: &impl Print) -> io::Result<()> {
    let longer = [1; 201];
    for (name, code, message, room) in [
        ("16   ", code(2, 17, 7, 5), b"\x01".as_slice(), 6),
        ("     ", code(1, 2, 7, 5), b"\x01", 6),
        ("     ", code(5, 2, 7, 5), b"\x01", 6),
        ("     ", code(2, 0, 1, 1), b"\x01", 6),
        ("     ", code(2, 2, 7, 0), b"\x01", 6),
        ("     ", code(2, 2, 8, 5), b"\x01", 6),
        ("     ", code(2, 6, 412, 372), b"\x01", 14),
        ("     ", code(u32::MAX, u32::MAX, u32::MAX, 5), b"\x01", 6),
        ("     ", house(4), b"", 0),
        ("16   ", house(0), &longer, 406),
        ("     ", house(0), b"", 6),
        ("     ", house(0), b"\x01", 5),
        ("     ", house(0), b"\x02", 5),
        ("     ", house(0), b"\x01\x02", 8),
        ("     ", house(0), b"\xff", 6),
    ] {
        tried(rt, name, code, message, room)?;
    }
    Ok(())
}

// The code with the most outputs and the most memory.
pub fn wide() -> Code {
    Code {
        outputs: 4,
        memory: 16,
        generators: [131071, 65537, 118025, 78583],
    }
}

fn code(outputs: u32, memory: u32, one: u32, two: u32) -> Code {
    Code {
        outputs,
        memory,
        generators: [one, two, 0, 0],
    }
}

// What goes in, the answer, and the buffer, of so many bytes, as it is then.
fn tried(rt: &impl Print, name: &str, code: Code, message: &[u8], room: usize) -> io::Result<()> {
    let mut buffer = [9; 1024];
    let Some(out) = buffer.get_mut(..room) else {
        return Ok(());
    };
    print!(rt;
        "{name}encode {} message {}: ",
        Rules(code),
        Start::new(message, 8)
    )?;
    match encode(code, message, out) {
        Ok(n) => print!(rt; "0 done, {n} symbols")?,
        Err(refusal) => print!(rt; "{refusal}")?,
    }
    println!(rt; ", buffer {}", Start::new(out, code.outputs as usize))
}

// Records, read one after another.
use crate::calls;
use crate::record::{FIELDS, Record};
use crate::stop::Stop;
use fields::read_full;
use std::io::Read;

// A record behind its size: with it, 32,768 bytes.
const LONGEST: usize = 32764;

// Answers the records up to the end of the stream. A proved loop has to end, and nothing says that a stream does: the loop has a bound
// that no run reaches.
pub fn answered(rt: &impl Print, input: &mut impl Read) -> Result<(), Stop> {
    for _ in 0..u64::MAX {
        let mut head = [0; 4];
        if read_full(input, &mut head)?.is_empty() {
            break;
        }
        answer(rt, input, u32::from_le_bytes(head) as usize)?;
    }
    Ok(())
}

// Reads a record of so many bytes and answers it.
fn answer(rt: &impl Print, input: &mut impl Read, size: usize) -> Result<(), Stop> {
    if size < FIELDS {
        return Err(Stop::Short);
    }
    let mut bytes = [0; LONGEST];
    let bytes = bytes.get_mut(..size).ok_or(Stop::Long)?;
    let bytes = read_full(input, bytes)?;
    if bytes.len() < size {
        return Err(Stop::Cut);
    }
    calls::answer(rt, &Record::try_from(bytes)?)
}

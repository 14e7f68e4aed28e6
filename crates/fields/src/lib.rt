// Bytes from an input, and symbols from bytes, for the programs. Nothing here is promised but that each call is safe and ends.
#![tactic(auto)]

ghost use Rattle.std.specs.Prelude.{◌≡◌, ◌≤◌, length, min, IfOk};

use std::io;
use std::io::Read;

// Reads until the buffer is full or the input ends, and returns the part that was filled.
pub fn read_full<'a>(input: &mut impl Read, into: &'a mut [u8]) -> io::Result<&'a [u8]>
    ensures { IfOk result (λ part. length part.now ≤ length into.old) }
{
    let mut room = &mut *into;
    let limit = room.len() as u64;
    let read = io::copy(&mut input.take(limit), &mut room)?;
    // Of what `copy` read no clause says that it is within the limit.
    Ok(&into[..into.len().min(read as usize)])
}

// Each byte's bits as a symbol, as many as both have, at the start of the room.
pub fn symbols<'a>(bytes: &[u8], room: &'a mut [i8]) -> &'a [i8]
    ensures { length result.now ≡ min (length room.old) (length bytes.now) }
{
    let both = room.len().min(bytes.len());
    let symbols = &mut room[..both];
    for (symbol, byte) in symbols.iter_mut().zip(bytes) {
        *symbol = byte.cast_signed();
    }
    symbols
}

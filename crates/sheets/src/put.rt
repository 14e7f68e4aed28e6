// A sheet put into a buffer: the numbers in front, the message, the entries one by one.
ghost use Rattle.std.specs.Prelude.{◌≡◌, true, ◌+◌, ◌*◌, ◌≤◌, ◌<◌, length, get_or};
ghost use Rattle.std.proofs.lemmas.List.Edits.{sets};
ghost use Rattle.lists.specs.Lists.{all};
ghost use Rattle.codes.specs.Limits.{longest_message};
ghost use Rattle.codes.specs.Encoding.{is_bit};
ghost use Rattle.trellis.specs.Verdict.{entry};
ghost use Rattle.sheets.specs.Bytes.{message_size, octet, message_bytes, entry_bytes, message_place, entries_place};
ghost use Rattle.sheets.specs.Checking.{most_entries};
ghost use Rattle.sheets.specs.Work.{sheet_size, head_bytes, Puttable};

use crate::bytes::put_bytes;
use crate::form::{
    COUNT_PLACE, KIND, KIND_PLACE, LENGTH_PLACE, MESSAGE_PLACE, METRIC_PLACE, entries_place,
};

// The size of a sheet for messages of so many bits, with so many entries.
pub fn sheet_size(length: usize, count: usize) -> usize
    requires { (length ≤ longest_message) × (count ≤ most_entries) }
    ensures { result ≡ sheet_size length count }
{
    entries_place(length) + 8 * count
}

// Puts the numbers in front.
pub fn put_head(out: &mut [u8], length: usize, metric: u32, count: usize)
    requires { Puttable length count out.old }
    ensures { out.new ≡ sets out.old 0 (head_bytes length metric count) }
{
    let size = sheet_size(length, count);
    put_bytes(out, 0, &((size - 4) as u32).to_le_bytes());
    put_bytes(out, KIND_PLACE, &KIND.to_le_bytes());
    put_bytes(out, LENGTH_PLACE, &(length as u16).to_le_bytes());
    put_bytes(out, METRIC_PLACE, &metric.to_le_bytes());
    put_bytes(out, COUNT_PLACE, &(count as u16).to_le_bytes());
}

// Puts the message, eight bits a byte. (No type of bits: the message is the caller's slice and stays one.)
pub fn put_message(out: &mut [u8], message: &[u8])
    requires { (all is_bit message.now ≡ true) × (length message.now ≤ longest_message)
        × (entries_place (length message.now) ≤ length out.old) }
    ensures { out.new
        ≡ sets out.old message_place (message_bytes (length message.now) message.now) }
{
    let size = (message.len() + 7) / 8;
    for j in 0..size {
        out[MESSAGE_PLACE + j] = octet(message, j);
    }
}

// Puts an entry at a place.
pub fn put_entry(out: &mut [u8], at: usize, level: u16, state: u16, cost: u32)
    requires { at + 8 ≤ length out.old }
    ensures { out.new ≡ sets out.old at (entry_bytes (entry cost level state)) }
{
    put_bytes(out, at, &level.to_le_bytes());
    put_bytes(out, at + 2, &state.to_le_bytes());
    put_bytes(out, at + 4, &cost.to_le_bytes());
}

// Byte j of a message, the first bit highest. Eight terms, as in the definition: a loop would be no plainer, and needs a bound on the
// sum so far.
#[tactic(auto, unfolding(crate::specs::Bytes::octet))]
fn octet(message: &[u8], j: usize) -> u8
    requires bits { all is_bit message.now ≡ true }
    requires place { j < message_size longest_message }
    ensures { result ≡ octet message.now j }
{
    let at = 8 * j;
    let high = 8 * bit(message, at)
        + 4 * bit(message, at + 1)
        + 2 * bit(message, at + 2)
        + bit(message, at + 3);
    let low = 8 * bit(message, at + 4)
        + 4 * bit(message, at + 5)
        + 2 * bit(message, at + 6)
        + bit(message, at + 7);
    16 * high + low
}

// Bit i of a message, and behind its end 0. (As the encoder's `bit_at`, and a bit: one line, and a name for both would be no shorter.)
fn bit(message: &[u8], i: usize) -> u8
    requires { all is_bit message.now ≡ true }
    ensures read { result ≡ get_or message.now i 0 }
    ensures bit { result ≤ 1 }
{
    message.get(i).copied().unwrap_or(0)
}

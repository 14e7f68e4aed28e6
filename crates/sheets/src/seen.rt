// The core: the check of a decision sheet for a block as it was seen, of whatever kind of block. It sees no code and no symbol.
ghost use Rattle.std.specs.Prelude.{◌≡◌, ◌≤◌, length as len};
ghost use Rattle.std.proofs.lemmas.List.Edits.{sets};
ghost use Rattle.codes.specs.Limits.{shortest_message};
ghost use Rattle.sheets.specs.Bytes.{sheet_read};
ghost use Rattle.sheets.specs.Checking.{told};
ghost use Rattle.sheets.specs.Work.{Whole, formed_for, checking_seen};

use crate::claim::carries;
use crate::entries::{entries_of, inside, rise};
use crate::form::{Head, bit, framed};
use blocks::block::Block;
use codes::limits::LONGEST_MESSAGE;
use desk::Refusal;

// 'entry count, 1 to 4,096'.
const MOST_ENTRIES: u16 = 4096;

// Checks a sheet for a block as it was seen and gives its metric. On a refusal nothing is written.
#[tactic(auto, unfolding(desk::specs::Desk::told_by, desk::specs::Desk::refused, desk::specs::Desk::tested, crate::specs::Checking::check_desk))]
pub fn check_seen(block: &Block<'_>, sheet: &[u8], message: &mut [u8]) -> Result<u32, Refusal>
    requires some { shortest_message ≤ block.now.bits }
    requires room { block.now.bits ≤ len message.old }
    ensures { told result message.new ≡ checking_seen block.now sheet.now message.old }
{
    if !formed(block, sheet) {
        return Err(Refusal::Malformed);
    }
    let bits = block.bits as usize;
    // Fixed memory, no heap: room for the longest message. (It is read once more when it is written: a copy of so many bytes would ask C
    // for `memcpy`.)
    let mut own = [0u8; LONGEST_MESSAGE];
    take_message(bits, sheet, &mut own);
    if !carries(block, sheet, &own[..bits]) {
        return Err(Refusal::NotCarried);
    }
    take_message(bits, sheet, message);
    Ok(Head::read(sheet).metric)
}

// Whether the form is good: the frame, the count, the order, and every node in the trellis.
#[tactic(auto, using(std::proofs::lemmas::Bool::Decides::nat_tests, crate::proofs::Frame::counted), unfolding(crate::specs::Checking::formed))]
fn formed(block: &Block<'_>, sheet: &[u8]) -> bool
    requires { shortest_message ≤ block.now.bits }
    ensures { result ≡ formed_for block.now sheet.now }
{
    let bits = block.bits as usize;
    if !framed(bits, sheet) {
        return false;
    }
    let count = Head::read(sheet).count;
    if count < 1 {
        return false;
    }
    if MOST_ENTRIES < count {
        return false;
    }
    let entries = entries_of(bits, sheet);
    if !rise(entries) {
        return false;
    }
    inside(entries, block.top(), block.machine.states())
}

// Writes the bits of the message over the front of a buffer.
fn take_message(length: usize, sheet: &[u8], message: &mut [u8])
    requires whole { Whole length sheet.now }
    requires room { length ≤ len message.old }
    ensures { message.new ≡ sets message.old 0 (sheet_read length sheet.now).message }
{
    for i in 0..length {
        message[i] = bit(sheet, i);
    }
}

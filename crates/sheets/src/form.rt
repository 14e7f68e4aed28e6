// The form of a sheet, but for its entries: the places of its parts, the numbers in front, the message.
ghost use Rattle.std.specs.Prelude.{◌≡◌, ◌+◌, ◌≤◌, length};
ghost use Rattle.codes.specs.Limits.{shortest_message, longest_message};
ghost use Rattle.sheets.specs.Bytes.{number_at, metric_place, count_place, message_size, message_place, entries_place, bit_at};
ghost use Rattle.sheets.specs.Checking.{framed};

use crate::bytes::bytes_at;

// 'kind 257'.
pub const KIND: u16 = 257;

// The places of the numbers in front, and of the message behind them.
pub const KIND_PLACE: usize = 4;

pub const LENGTH_PLACE: usize = 6;

pub const METRIC_PLACE: usize = 8;

pub const COUNT_PLACE: usize = 12;

pub const MESSAGE_PLACE: usize = 14;

// The numbers in front: how many bytes follow, the kind, L, the metric, and how many entries there are.
#[derive(Clone, Copy, Debug, PartialEq, Eq)]
pub struct Head {
    pub follow: u32,
    pub kind: u16,
    pub span: u16,
    pub metric: u32,
    pub count: u16,
}

impl Head {
    // The numbers that a sheet has in front.
    pub fn read(sheet: &[u8]) -> Head
        requires { message_place ≤ length sheet.now }
        ensures follow { result.follow ≡ number_at 4 0 sheet.now }
        ensures kind { result.kind ≡ number_at 2 4 sheet.now }
        ensures span { result.span ≡ number_at 2 6 sheet.now }
        ensures metric { result.metric ≡ number_at 4 metric_place sheet.now }
        ensures count { result.count ≡ number_at 2 count_place sheet.now }
    {
        Head {
            follow: u32::from_le_bytes(bytes_at(sheet, 0)),
            kind: u16::from_le_bytes(bytes_at(sheet, KIND_PLACE)),
            span: u16::from_le_bytes(bytes_at(sheet, LENGTH_PLACE)),
            metric: u32::from_le_bytes(bytes_at(sheet, METRIC_PLACE)),
            count: u16::from_le_bytes(bytes_at(sheet, COUNT_PLACE)),
        }
    }
}

// The place of the first entry, behind a message of so many bits.
pub fn entries_place(length: usize) -> usize
    requires { length ≤ longest_message }
    ensures { result ≡ entries_place length }
{
    MESSAGE_PLACE + (length + 7) / 8
}

// Whether the bytes are those of a sheet for messages of so many bits: all there, none left over, with the right numbers in front and
// the unused bits 0.
pub fn framed(length: usize, sheet: &[u8]) -> bool
    requires some { shortest_message ≤ length }
    requires span { length ≤ longest_message }
    ensures { result ≡ framed length sheet.now }
{
    let size = sheet.len();
    let place = entries_place(length);
    if size < place {
        return false;
    }
    let head = Head::read(sheet);
    if size != place + 8 * head.count as usize {
        return false;
    }
    if head.follow as usize != size - 4 {
        return false;
    }
    if head.kind != KIND {
        return false;
    }
    if head.span as usize != length {
        return false;
    }
    let unused = 8 * (place - MESSAGE_PLACE) - length;
    (sheet[place - 1] as u32) % (1u32 << unused) == 0
}

// Bit i of the message.
pub fn bit(sheet: &[u8], i: usize) -> u8
    requires span { i ≤ longest_message }
    requires there { message_place + message_size (i + 1) ≤ length sheet.now }
    ensures { result ≡ bit_at sheet.now i }
{
    let byte = sheet[MESSAGE_PLACE + i / 8];
    (byte >> (7 - i % 8)) % 2
}

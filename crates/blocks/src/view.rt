// The symbols of a block turned once into plain numbers, which search and check read.
ghost use Rattle.std.specs.Prelude.{◌≡◌, ℕ, ◌+◌, ◌*◌, ◌≤◌, ◌<◌, ◌^◌, length as len, get_or};
ghost use Rattle.std.proofs.lemmas.List.Edits.{sets};
ghost use Rattle.codes.specs.Codes.{block_length};
ghost use Rattle.codes.specs.Limits.{longest_message};
ghost use Rattle.codes.specs.Work.{longest_block};
ghost use Rattle.blocks.specs.Symbols.{weight, hard_bit, view};
ghost use Rattle.blocks.specs.Blocks.{trellis_of};
ghost use Rattle.blocks.specs.Machines.{states_of, trellis_under};
ghost use Rattle.blocks.specs.Packed.{seen_limit, packed};

use crate::block::{Block, Machine};
use crate::symbols::{hard_bit, weight};
use codes::table::LawfulCode;

// The block of a code's symbols as it is seen, its numbers in a lent buffer.
pub fn see<'a>(kept: LawfulCode, bits: usize, symbols: &[i8], seen: &'a mut [u16]) -> Block<'a>
    requires span { bits ≤ longest_message }
    requires full { len symbols.now ≡ block_length kept.code bits }
    requires room { longest_block ≤ len seen.old }
    ensures bits { result.bits ≡ bits }
    ensures states { states_of result.machine ≡ 2 ^ kept.code.memory }
    ensures trellis { trellis_under result ≡ trellis_of kept.code bits (view symbols.now) }
{
    put_numbers(symbols, seen);
    Block::new(Machine::of(kept), bits as u64, &seen[..symbols.len()])
}

// Writes the numbers of all symbols over the front of the buffer.
fn put_numbers(symbols: &[i8], seen: &mut [u16])
    requires { len symbols.now ≤ len seen.old }
    ensures numbers { seen.new ≡ sets seen.old 0 (packed (view symbols.now)) }
    ensures narrow { (i : ℕ) → get_or (packed (view symbols.now)) i 0 < seen_limit }
{
    for (i, symbol) in symbols.iter().enumerate() {
        seen[i] = number(*symbol);
    }
}

// One symbol as a number: twice its weight plus its hard bit, from 0 to 257.
fn number(symbol: i8) -> u16
    ensures is { result ≡ weight symbol * 2 + hard_bit symbol }
    ensures narrow { result < seen_limit }
{
    (weight(symbol) * 2 + hard_bit(symbol)) as u16
}

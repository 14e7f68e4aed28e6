// The encoder: the sizes and bits are tested before the first byte is written, so a refusal writes nothing.
ghost use Rattle.std.specs.Prelude.{◌≡◌, ◌++◌, length, get_or, drop};
ghost use Rattle.lists.specs.Lists.{all};
ghost use Rattle.codes.specs.Codes.{branch_outputs, codeword, block_length};
ghost use Rattle.codes.specs.Encoding.{is_bit, told, encoding};
ghost use Rattle.codes.specs.Work.{Encodable};

use crate::limits::{LONGEST_MESSAGE, SHORTEST_MESSAGE};
use crate::register::{Register, output_bit};
use crate::table::{Code, LawfulCode};
use desk::Refusal;

// Encodes a message of bits, one a byte, with the zero tail, and answers the number of symbols. On a refusal nothing is written.
#[tactic(auto, using(std::proofs::lemmas::Bool::Decides::nat_tests, crate::proofs::LawfulCodes::unlawful, crate::proofs::LawfulCodes::same_code), unfolding(desk::specs::Desk::told_by, desk::specs::Desk::refused, desk::specs::Desk::tested, crate::specs::Encoding::encoding))]
pub fn encode(code: Code, message: &[u8], out: &mut [u8]) -> Result<usize, Refusal>
    ensures { told result out.new ≡ encoding code message.now out.old }
{
    let kept = LawfulCode::new(code).ok_or(Refusal::BadCode)?;
    let bits = message.len();
    if !(SHORTEST_MESSAGE..=LONGEST_MESSAGE).contains(&bits) {
        return Err(Refusal::BadSize);
    }
    let symbols = kept.block_length(bits);
    if out.len() < symbols {
        return Err(Refusal::BadSize);
    }
    if !are_bits(message) {
        return Err(Refusal::Malformed);
    }
    put_codeword(kept, message, out);
    Ok(symbols)
}

// Whether every byte is 0 or 1.
fn are_bits(message: &[u8]) -> bool
    ensures { result ≡ all is_bit message.now }
{
    message.iter().all(|&bit| bit <= 1)
}

// The bit of the message at a step, and past its end the tail's 0.
fn bit_at(message: &[u8], i: usize) -> u8
    ensures { result ≡ get_or message.now i 0 }
{
    message.get(i).copied().unwrap_or(0)
}

// Writes the codeword over the front of the buffer, branch by branch.
#[tactic(auto, using(crate::proofs::Codewords::writing), unfolding(crate::specs::Codes::codeword))]
fn put_codeword(kept: LawfulCode, message: &[u8], out: &mut [u8])
    requires { Encodable kept.code message.now (length out.old) }
    ensures { out.new ≡ codeword kept.code message.now ++ drop (block_length kept.code (length message.now)) out.old }
{
    let code = kept.code;
    let n = code.outputs as usize;
    let generators = &code.generators[..n];
    let branches = kept.branches(message.len());
    let mut register = Register::start(code.memory);
    for i in 0..branches {
        let bit = bit_at(message, i);
        let at = n * i;
        put_branch(generators, register.with(bit), &mut out[at..at + n]);
        register = register.next(bit);
    }
}

// Writes the outputs of one branch, generator 1 first.
fn put_branch(generators: &[u32], register: u32, branch: &mut [u8])
    requires { length branch.old ≡ length generators.now }
    ensures { branch.new ≡ branch_outputs generators.now register }
{
    for (j, generator) in generators.iter().enumerate() {
        branch[j] = output_bit(register, *generator);
    }
}

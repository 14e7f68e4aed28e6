// The rounding of the front end for C: a static library of one exported function, thin over `front`, whose clause it states again.
#![tactic(auto)]

ghost use Rattle.std.specs.Prelude.{◌≡◌};
ghost use Rattle.front.specs.Rounding.{rounded};

// The symbol of a product with these bits, for a program in C or Rust that tries every bit pattern (second/rounding).
// (A twin of `front`'s function: C's interface, so the name is exported and the clause is stated here again.)
#[unsafe(no_mangle)]
pub extern "C" fn plumtassel_symbol_of_product(bits: u32) -> i8
    ensures { result ≡ rounded bits }
{
    front::plumtassel_symbol_of_product(bits)
}

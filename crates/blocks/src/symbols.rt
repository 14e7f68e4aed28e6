// Weight and hard bit of a symbol.
ghost use Rattle.std.specs.Prelude.{◌≡◌};
ghost use Rattle.blocks.specs.Symbols.{weight, hard_bit};

// Its distance from zero: from 0 to 128.
pub fn weight(symbol: i8) -> u32
    ensures { result ≡ weight symbol }
{
    u32::from(symbol.unsigned_abs())
}

// 1 below zero, 0 otherwise.
pub fn hard_bit(symbol: i8) -> u32
    ensures { result ≡ hard_bit symbol }
{
    u32::from(symbol < 0)
}

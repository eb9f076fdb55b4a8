// A word of 32 bits, one for each of 32 things that may be told apart.
ghost use Rattle.std.specs.Prelude.{◌≡◌};
ghost use Rattle.names.specs.Bits.{is_set};

/// Whether a bit is set. A word has 32 bits.
#[tactic(auto, unfolding(crate::specs::Bits::is_set, crate::specs::Bits::bit))]
pub fn is_set(word: u32, bit: u8) -> bool
    ensures { result ≡ is_set word bit }
{
    bit < 32 && (word >> bit) % 2 == 1
}

// A number is spelt in one to three bytes, seven bits each, lowest group first, in its shortest form.
ghost use Rattle.std.specs.Prelude.{◌≡◌, length};
ghost use Rattle.names.specs.Number.{spell_number};
ghost use Rattle.names.specs.Put.{Puts};

use crate::name::copy_name;

/// Three groups of ones.
pub const GREATEST_NUMBER: usize = 2097151;

// The least number that is spelt in three bytes.
const LEAST_OF_THREE_BYTES: usize = 16384;

/// How many bytes the number's spelling has; a number that has no spelling has none.
#[tactic(auto, unfolding(crate::specs::Number::spell_number))]
pub fn spelled_len(v: usize) -> usize
    ensures { result ≡ length (spell_number v) }
{
    match v {
        0..128 => 1,
        128..LEAST_OF_THREE_BYTES => 2,
        LEAST_OF_THREE_BYTES..=GREATEST_NUMBER => 3,
        _ => 0,
    }
}

/// Writes the number's spelling at a place, and gives the place after it; where it does not fit, nothing is written.
#[tactic(auto, using(crate::proofs::Putting::nothing_put), unfolding(crate::specs::Number::spell_number))]
pub fn write_number(out: &mut [u8], at: usize, v: usize) -> usize
    ensures { Puts out.old at (spell_number v) result out.new }
{
    let first = (v % 128) as u8;
    let second = (v / 128 % 128) as u8;
    match v {
        0..128 => copy_name(&[first], out, at),
        128..LEAST_OF_THREE_BYTES => copy_name(&[128 + first, second], out, at),
        LEAST_OF_THREE_BYTES..=GREATEST_NUMBER => {
            copy_name(&[128 + first, 128 + second, (v / 16384) as u8], out, at)
        }
        _ => at,
    }
}

// The number of a motif or of a colour.
ghost use Rattle.std.specs.Prelude.{◌≡◌, ◌≤◌};
ghost use Rattle.names.specs.Number.{number_below};
ghost use Rattle.names.specs.Told.{told};

use names::fault::{Fault, Refusal};
use names::reader::Reader;

// A number below a count, that of the motifs or of the colours.
#[inline(always)]
pub(crate) fn read_listed(reader: &mut Reader<'_>, count: usize) -> Result<u8, Fault>
    requires { count ≤ 64 }
    ensures read { told result reader.new.at ≡ number_below reader.old.bytes.now reader.old.at count 6 }
    ensures same { reader.new.bytes ≡ reader.old.bytes }
{
    let number = reader.below(count, Refusal::Unlisted)?;
    Ok(number as u8)
}

// A name is told from other names, and copied; which bytes may stand in it.
ghost use Rattle.std.specs.Prelude.{◌≡◌, ◌≤◌, ◌<◌, false, length, take, drop};
ghost use Rattle.std.specs.Bool.{OnFalse};
ghost use Rattle.names.specs.Name.{least_byte, same_name};
ghost use Rattle.names.specs.Part.{Part, tail_start};
ghost use Rattle.names.specs.Put.{Puts};
ghost use Rattle.names.specs.inner.Walks.{first_unshown};

/// A colour's name has no more bytes than this.
pub const LONGEST_NAME: usize = 40;

// The greatest byte that may stand in a name.
const GREATEST_BYTE: u8 = 126;

/// The part of a slice from a place on: nothing past the end.
pub fn tail(s: &[u8], at: usize) -> &[u8]
    ensures { Part s.entry (tail_start s.now at) (drop at s.now) result }
{
    if at <= s.len() { &s[at..] } else { &s[..0] }
}

/// The part of a slice up to a length: all of a shorter slice.
pub fn front(s: &[u8], len: usize) -> &[u8]
    ensures { Part s.entry 0 (take len s.now) result }
{
    &s[..len.min(s.len())]
}

// The least byte that may stand at a place of a name: a blank, 32, stands inside a name. At either end it is a slip of the keyboard.
#[tactic(auto, unfolding(crate::specs::Name::least_byte))]
fn least_byte(len: usize, i: usize) -> u8
    requires { i < len }
    ensures { result ≡ least_byte len i }
{
    if i == 0 || i + 1 == len { 33 } else { 32 }
}

// The first place, of those that there are, where a byte may not stand in a name of so many bytes.
#[tactic(auto, unfolding(crate::specs::inner::Walks::first_unshown))]
pub(crate) fn first_unshown(name: &[u8], len: usize) -> Option<usize>
    requires { length name.now ≤ len }
    ensures { result ≡ first_unshown len name.now }
{
    name.iter().enumerate().position(|(i, byte)| *byte < least_byte(len, i)
        || GREATEST_BYTE < *byte)
}

/// Whether two names are the same, byte for byte. The suffix is part of the name.
pub fn same_name(a: &[u8], b: &[u8]) -> bool
    ensures { result ≡ same_name a.now b.now }
{
    // From the back: names that share a long stem part in their last letters.
    a.len() == b.len() && a.iter().rev().zip(b.iter().rev()).all(|(x, y)| *x == *y)
}

/// Copies a name to a place of another slice, and gives the place after it; where it does not fit, nothing is written.
#[tactic(auto, unfolding(crate::specs::Put::put, crate::specs::Put::past))]
pub fn copy_name(name: &[u8], out: &mut [u8], at: usize) -> usize
    ensures { Puts out.old at name.now result out.new }
{
    if out.len() < at || out.len() - at < name.len() {
        return at;
    }
    let end = at + name.len();
    out[at..end].copy_from_slice(name);
    end
}

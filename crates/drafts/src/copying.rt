// Bytes copied into a slice. The loop stands for `names::name::copy_name`: by std's `copy_from_slice` the archive would call `memmove`, and a host in C is
// asked for `memcpy` and `memset` alone.
ghost use Rattle.names.specs.Put.{Puts};

// Copies bytes to a place of a slice, and gives the place after them; where they do not fit, nothing is written.
#[inline(always)]
pub(crate) fn copy(bytes: &[u8], out: &mut [u8], at: usize) -> usize
    ensures { Puts out.old at bytes.now result out.new }
{
    if out.len() < at || out.len() - at < bytes.len() {
        return at;
    }
    for i in 0..bytes.len() {
        out[at + i] = bytes[i];
    }
    at + bytes.len()
}

// A lent slice of numbers.
ghost use Rattle.std.specs.Prelude.{◌≡◌, length, replicate};

/// Sets every entry to 0.
pub fn clear(slice: &mut [u32])
    ensures { slice.new ≡ replicate (length slice.old) 0 }
{
    slice.fill(0);
}

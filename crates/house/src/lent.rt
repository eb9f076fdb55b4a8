// Slices as they are lent, filled with a value that no call writes here, so that what a call wrote can be counted.
ghost use Rattle.std.specs.Prelude.{◌≤◌};

// How much of a slice is lent: as much as is said, or all where nothing is.
pub(crate) fn room(said: usize, all: usize) -> usize
    ensures { result ≤ all }
{
    if said == 0 { all } else { said.min(all) }
}

// How many numbers of a slice were written: those that are not the value that it was filled with.
pub(crate) fn written<T: Copy + PartialEq>(slice: &[T], unwritten: T) -> usize {
    slice.iter().filter(|&&number| number != unwritten).count()
}

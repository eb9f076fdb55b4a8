// Which combination a call asks for. Enums and no closures: pairings differ in two steps, what the first book adds and what the second, so that each would be a pair of closures, with a clause for each.
use books::rule::Dir;

// Mirrored exchanges left and right, flipped upper and lower, transposed rows and columns.
#[derive(Clone, Copy)]
pub(crate) enum Change {
    Mirrored,
    Flipped,
    Transposed,
}

// Two books: either of them, or joined, which is beside or above.
#[derive(Clone, Copy)]
pub(crate) enum Pairing {
    EitherOf,
    Joined(Dir),
}

// One book: repeated, which is run or stack, or changed.
#[derive(Clone, Copy)]
pub(crate) enum Single {
    Repeated(Dir),
    Changed(Change),
}

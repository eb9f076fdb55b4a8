// A book to be written.
use books::family::Family;
use names::colours::Colours;

/// A family whose colours are parts of a first lent book, with more colours after them that are parts of a second.
#[derive(Clone, Copy)]
pub struct Draft {
    pub family: Family,
    pub more: Colours,
}

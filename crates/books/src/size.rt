// How many rows and columns a sheet has.
ghost use Rattle.std.specs.Prelude.{◌≡◌};
ghost use Rattle.books.specs.Size.{size_at, one_to?, within?};
ghost use Rattle.books.specs.Told.{told_size};

use crate::press::WIDEST;
use names::fault::Fault;
use names::reader::Reader;

/// The cells that an array has room for: those of a sheet with the greatest number of rows and columns of any press.
pub const ROOM: usize = WIDEST * WIDEST;

/// Rows and columns.
#[derive(Clone, Copy)]
pub struct Size {
    pub rows: usize,
    pub cols: usize,
}

// Whether there are so many rows, or columns: at least one, and no more than the most.
fn one_to(most: usize, n: usize) -> bool
    ensures { result ≡ one_to? most n }
{
    0 < n && n <= most
}

/// Whether rows and columns are each from 1 to the most.
pub fn within(most: usize, size: Size) -> bool
    ensures { result ≡ within? most size.rows size.cols }
{
    one_to(most, size.rows) && one_to(most, size.cols)
}

impl Size {
    // Rows, then columns, each from 1 to the most that a sheet may have.
    #[inline(always)]
    #[tactic(auto, unfolding(crate::specs::Size::size_at))]
    pub(crate) fn read(reader: &mut Reader<'_>, most: usize) -> Result<Self, Fault>
        ensures read { told_size result reader.new.at ≡ size_at reader.old.bytes.now reader.old.at most }
        ensures same { reader.new.bytes ≡ reader.old.bytes }
    {
        Ok(Size {
            rows: reader.within(1, most)?,
            cols: reader.within(1, most)?,
        })
    }
}

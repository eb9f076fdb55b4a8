// The reason why a sheet is not in a family, by the masks of its rules and the table of the sheet's pieces.
ghost use Rattle.std.specs.Prelude.{◌≡◌};
ghost use Rattle.sizes.specs.Table.{has_size_by};
ghost use Rattle.reasons.specs.inner.FromTable.{PiecesHeld, reason_in};

use crate::reason::Reason;
use crate::unnamed::first_bare;
use books::size::Size;
use pieces::largest::largest;
use pieces::masks::Joins;
use sizes::one::has_size;

// First a cell whose colour no rule names, then the size, then the largest piece that the start motif derives.
pub(crate) fn reason(
    press: usize,
    masks: &[u32],
    joins: Joins,
    start: u8,
    work: &[u32],
    size: Size,
) -> Reason
    requires { PiecesHeld press size work.now }
    ensures { result ≡ reason_in (has_size_by press masks.now joins start size.rows size.cols) work.now start
        size.rows size.cols }
{
    let cells = size.rows * size.cols;
    if let Some(i) = first_bare(&work[..cells]) {
        return Reason::Unnamed {
            row: i / size.cols,
            column: i % size.cols,
        };
    }
    if has_size(press, masks, joins, start, size) {
        return Reason::of_piece(largest(work, start, size));
    }
    Reason::NoSuchSize
}

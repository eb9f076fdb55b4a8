// The cells of a sheet: a colour number each, row by row.
ghost use Rattle.std.specs.Prelude.{◌≡◌, ◌≤◌};
ghost use Rattle.names.specs.Spelling.{most_colours};
ghost use Rattle.books.specs.Size.{room};
ghost use Rattle.books.specs.Cells.{cells_onward};
ghost use Rattle.books.specs.inner.Parts.{told_cells};

use crate::listed::read_listed;
use crate::size::ROOM;
use names::fault::Fault;
use names::reader::Reader;

// So many cells, each the number of one of so many colours, read into a lent array. Past the last it stays as it was, since a run reads thousands of
// small sheets into one array; where the cells are refused, some are left in it.
pub(crate) fn read_cells(
    reader: &mut Reader<'_>,
    colours: usize,
    count: usize,
    cells: &mut [u8; ROOM],
) -> Result<(), Fault>
    requires { (colours ≤ most_colours) × (count ≤ room) }
    ensures read { told_cells result cells.new reader.new.at ≡ cells_onward reader.old.bytes.now colours cells.old 0 reader.old.at count }
    ensures same { reader.new.bytes ≡ reader.old.bytes }
{
    let own = &mut cells[..count];
    for cell in own.iter_mut() {
        *cell = read_listed(reader, colours)?;
    }
    Ok(())
}

// The call of the proofing desk.
ghost use Rattle.desk.specs.Recolour.{recolouring, RecoloursPacked};

/// One cell of a sheet recoloured.
#[unsafe(no_mangle)]
pub extern "C" fn dv_recolour(
    press: usize,
    book: &[u8],
    sheet: &mut [u8],
    work: &mut [u32],
    row: usize,
    column: usize,
    colour: usize,
) -> u64
    ensures { RecoloursPacked (recolouring press book.now sheet.old work.old row column colour)
        result sheet.new work.new }
{
    desk::dv_recolour(press, book, sheet, work, row, column, colour)
}

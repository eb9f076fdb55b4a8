// What a host looks up in a book, a sheet or a run, and the version.
ghost use Rattle.std.specs.Prelude.{◌≡◌};
ghost use Rattle.lookups.specs.Book.{counts_shown, rule_shown, version};
ghost use Rattle.lookups.specs.Colour.{shown_place};
ghost use Rattle.lookups.specs.Sheet.{size_shown, cell_shown, sheet_colour_shown};
ghost use Rattle.runs.specs.Numbered.{run_sheet_shown};

use lookups::{book, colour, sheet};
use runs::numbered;

/// The version of rules and calls.
#[unsafe(no_mangle)]
pub extern "C" fn dv_version() -> u64
    ensures { result ≡ version }
{
    book::dv_version()
}

/// The counts of a book.
#[unsafe(no_mangle)]
pub extern "C" fn dv_counts(book: &[u8]) -> u64
    ensures { result ≡ counts_shown book.now }
{
    book::dv_counts(book)
}

/// A rule of a book.
#[unsafe(no_mangle)]
pub extern "C" fn dv_rule(book: &[u8], number: usize) -> u64
    ensures { result ≡ rule_shown book.now number }
{
    book::dv_rule(book, number)
}

/// Where a colour's name stands in a book.
#[unsafe(no_mangle)]
pub extern "C" fn dv_colour(book: &[u8], number: usize) -> u64
    ensures { result ≡ shown_place book.now number }
{
    colour::dv_colour(book, number)
}

/// Rows and columns of a sheet.
#[unsafe(no_mangle)]
pub extern "C" fn dv_sheet_size(press: usize, sheet: &[u8]) -> u64
    ensures { result ≡ size_shown press sheet.now }
{
    sheet::dv_sheet_size(press, sheet)
}

/// The colour of a cell of a sheet.
#[unsafe(no_mangle)]
pub extern "C" fn dv_cell(press: usize, sheet: &[u8], row: usize, column: usize) -> u64
    ensures { result ≡ cell_shown press sheet.now row column }
{
    sheet::dv_cell(press, sheet, row, column)
}

/// Where a colour's name stands in a sheet.
#[unsafe(no_mangle)]
pub extern "C" fn dv_sheet_colour(press: usize, sheet: &[u8], number: usize) -> u64
    ensures { result ≡ sheet_colour_shown press sheet.now number }
{
    sheet::dv_sheet_colour(press, sheet, number)
}

/// Where a sheet stands in a run.
#[unsafe(no_mangle)]
pub extern "C" fn dv_run_sheet(run: &[u8], number: usize) -> u64
    ensures { result ≡ run_sheet_shown run.now number }
{
    numbered::dv_run_sheet(run, number)
}

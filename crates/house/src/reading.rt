// A book or a sheet read by itself, and whether two inputs are the same.
use crate::kinds::Case;
use crate::printing;
use std::io;

// Whether the first input is a book.
pub(crate) fn book(rt: &impl Print, case: Case<'_>) -> io::Result<()> {
    printing::answer(rt, books::calls::dv_read_book(case.first))?;
    println!(rt)
}

// Whether the first input is a sheet of the press, and its ticket.
pub(crate) fn sheet(rt: &impl Print, case: Case<'_>) -> io::Result<()> {
    printing::answer_and_count(rt, books::calls::dv_read_sheet(case.press, case.first))?;
    println!(rt)
}

// The rows and the columns of a sheet of the press.
pub(crate) fn grid(rt: &impl Print, case: Case<'_>) -> io::Result<()> {
    let size = lookups::sheet::dv_sheet_size(case.press, case.first);
    let rows = size % 4294967296;
    let columns = size / 4294967296;
    println!(rt; ": {rows} {columns}")
}

// The byte of an input at a place, or 0 beyond its end.
fn byte_at(input: &[u8], i: usize) -> u8 {
    input.get(i).copied().unwrap_or(0)
}

// The name of a colour of the book, or nothing.
pub(crate) fn ink(rt: &impl Print, case: Case<'_>) -> io::Result<()> {
    let number = usize::from(byte_at(case.second, 0));
    rt.write_all(lookups::colour::colour(case.first, number))?;
    println!(rt; "\"")
}

// The motif count and the rule count of a book with the colours of the house.
pub(crate) fn figures(rt: &impl Print, case: Case<'_>) -> io::Result<()> {
    let motifs = byte_at(case.first, 17);
    let rules = byte_at(case.first, 19);
    println!(rt; ": {motifs} {rules}")
}

// Whether the two inputs are the same, byte for byte.
pub(crate) fn equal(rt: &impl Print, case: Case<'_>) -> io::Result<()> {
    let told = if case.first == case.second {
        "yes"
    } else {
        "no"
    };
    println!(rt; ": {told}")
}

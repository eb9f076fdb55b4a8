// Why a sheet is not in the family.
use crate::kinds::Case;
use crate::printing;
use std::io;

// The answer, a reason's kind, row, column, height and width, and how much of the work slice was written.
pub(crate) fn why_not(rt: &impl Print, case: Case<'_>, work: &mut [u32]) -> io::Result<()> {
    let packed = reasons::calls::dv_why_not(case.press, case.first, case.second, work);
    printing::answer(rt, packed)?;
    let count = packed / 4294967296;
    let kind = count % 8;
    let row = count / 8 % 32;
    let column = count / 256 % 32;
    let height = count / 8192 % 32;
    let width = count / 262144;
    print!(rt; "; {kind} {row} {column} {height} {width}")?;
    printing::written(rt, work)?;
    println!(rt)
}

// The report of a run of sheets.
use crate::kinds::Case;
use crate::{lent, printing};
use std::io;

// The answer, how much of the work slice was written, and the figures: sheets, the ten counts of answers, the cells of the two colours; and whether
// a sheet was accepted, the least and the greatest ticket. The line says how much of a figures slice is lent.
pub(crate) fn run(rt: &impl Print, case: Case<'_>, work: &mut [u32]) -> io::Result<()> {
    let mut figures = [u32::MAX; 78];
    let figures = &mut figures[..lent::room(case.line.number(5), 78)];
    let packed = runs::calls::dv_run_report(case.press, case.first, case.second, work, figures);
    printing::answer(rt, packed)?;
    printing::written(rt, work)?;
    if lent::written(figures, u32::MAX) == 0 {
        return println!(rt; "; no figures");
    }
    print!(rt; ";")?;
    printing::numbers(rt, figures.get(..13).unwrap_or(&[]))?;
    print!(rt; "  accepted and tickets:")?;
    printing::numbers(rt, figures.get(75..).unwrap_or(&[]))
}

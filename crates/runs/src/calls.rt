// The report of a run as a call: from a lent book and a lent run, with a lent work slice.
ghost use Rattle.runs.specs.Outcome.{report, run_report, Answers, Leaves};

use crate::figures;
use crate::figures::{FIGURES_LONG, Figures};
use crate::report::report_into;
use books::answer::{Answer, pack};
use books::press::PRESSES;
use books::reply::Reply;

/// The answer, and the figures of the run. A struct, and no Result: `Answers` names both fields, and a C host gets both.
#[derive(Clone, Copy)]
pub struct RunReport {
    pub answer: Answer,
    pub figures: Figures,
}

/// Reports a run on a press against a book. After a report the front of the work slice, as far as any sheet can need it, is 0.
pub fn report(press: usize, book: &[u8], run: &[u8], work: &mut [u32]) -> RunReport
    ensures { Answers (report press book.now run.now work.old) result work.new }
{
    let mut row = [0u32; FIGURES_LONG];
    let answer = report_into(press, book, run, work, &mut row);
    let figures = figures::named(&row);
    RunReport { answer, figures }
}

/// The same for the C host, with the figures one after another in a lent slice.
pub fn dv_run_report(
    press: usize,
    book: &[u8],
    run: &[u8],
    work: &mut [u32],
    figures: &mut [u32],
) -> u64
    ensures { Leaves (run_report press book.now run.now work.old figures.old) result work.new
        figures.new }
{
    if press >= PRESSES {
        return pack(Reply::NoPress.answer(), 0);
    }
    if figures.len() < FIGURES_LONG {
        return pack(Reply::OutShort.answer(), 0);
    }
    pack(report_into(press, book, run, work, figures), 0)
}

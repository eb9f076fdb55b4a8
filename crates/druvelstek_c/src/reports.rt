// The report of a run.
ghost use Rattle.runs.specs.Outcome.{run_report, Leaves};

use runs::calls;

/// A run of sheets against one book, in figures.
#[unsafe(no_mangle)]
pub extern "C" fn dv_run_report(
    press: usize,
    book: &[u8],
    run: &[u8],
    work: &mut [u32],
    figures: &mut [u32],
) -> u64
    ensures { Leaves (run_report press book.now run.now work.old figures.old) result work.new
        figures.new }
{
    calls::dv_run_report(press, book, run, work, figures)
}

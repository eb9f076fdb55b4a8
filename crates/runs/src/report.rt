// The figures of a run: the book is read and split into masks once, and each sheet is asked of it in turn.
ghost use Rattle.std.specs.Prelude.{◌≡◌, ◌≤◌, length, replicate, Ok};
ghost use Rattle.names.specs.Bytes.{Bytes};
ghost use Rattle.books.specs.Press.{IsPress};
ghost use Rattle.pieces.specs.Asking.{kept_with, split_book};
ghost use Rattle.pieces.specs.Masks.{all_masks};
ghost use Rattle.pieces.specs.Split.{told_split};
ghost use Rattle.runs.specs.Figures.{work_room, figures_long};
ghost use Rattle.runs.specs.Outcome.{report, told};
ghost use Rattle.runs.specs.inner.Reporting.{told_report, telling};

use crate::counting::add_asked;
use crate::figures::FIGURES_LONG;
use crate::framing::{frame_at, framing};
use books::answer::{Answer, blame};
use books::press::{PRESSES, greatest};
use books::reply::Reply;
use books::size::ROOM;
use pieces::asking::{Split, ask_sheet, split_book};
use pieces::masks::ALL_MASKS;

// The entries of the table of the greatest sheet of a press: one for each stretch of cells in a column with each stretch in a row.
fn work_room(press: usize) -> usize
    ensures { result ≡ work_room press }
{
    let most = greatest(press);
    let stretches = most * (most + 1) / 2;
    stretches * stretches
}

// A press, and an accepted book with the masks of its rules: what every sheet of a run is asked of.
#[derive(Clone, Copy)]
struct Asker<'a> {
    press: usize,
    book: &'a [u8],
    split: &'a Split,
    masks: &'a [u32],
    ghost on_press: { IsPress press },
    ghost bytes: { Bytes book.now },
    ghost kept: { kept_with (told_split (Ok split.now)) masks.now ≡ split_book book.now (replicate all_masks 0) },
}

impl<'a> Asker<'a> {
    ghost use Rattle.runs.specs.Run.{sheets_of};
    ghost use Rattle.runs.specs.inner.Reporting.{AddingDue, RunDue, Adds, Counts};

    // One sheet more: asked of the book, and added to the figures. A sheet of one cell takes a fourteenth fewer instructions with the hint.
    #[inline(always)]
    fn add_sheet(&self, sheet: &[u8], cells: &mut [u8; ROOM], work: &mut [u32], figures: &mut [u32])
        requires { AddingDue self.now.press work.old figures.old }
        ensures { Adds self.now.press self.now.book.now sheet.now work.old work.new figures.old figures.new }
    {
        let r = ask_sheet(
            self.press, self.book, self.split, self.masks, sheet, cells, work,
        );
        add_asked(r, cells, figures);
    }

    // Every sheet of a run whose framing has no fault, from figures of no sheets. The loop counts nothing: a sheet ends where the next length stands.
    fn add_sheets(&self, run: &[u8], work: &mut [u32], figures: &mut [u32])
        requires { RunDue self.now.press run.now work.old figures.old }
        ensures { Counts self.now.press self.now.book.now (sheets_of run.now) work.old work.new figures.old
            figures.new }
    {
        let mut at = 0;
        let mut cells = [0; ROOM];
        while at < run.len() {
            let frame = frame_at(run, at).unwrap();
            self.add_sheet(&run[frame.start..frame.end], &mut cells, work, figures);
            at = frame.end;
        }
    }
}

// Reports a run into a slice of figures, or tells what refuses it: the press, the book, the run and the work slice are judged in that order. Where something is
// refused, every figure is 0 and the work slice is as it was.
fn add_run(
    press: usize,
    book: &[u8],
    run: &[u8],
    work: &mut [u32],
    figures: &mut [u32],
) -> Result<(), Answer>
    requires { figures_long ≤ length figures.old }
    ensures { telling (told_report result) work.new figures.new
        ≡ told (report press book.now run.now work.old) figures.old }
{
    figures[..FIGURES_LONG].fill(0);
    if press >= PRESSES {
        return Err(Reply::NoPress.answer());
    }
    let mut masks = [0; ALL_MASKS];
    let split = split_book(book, &mut masks).map_err(|fault| blame(1, fault))?;
    framing(run).map_err(|fault| blame(2, fault))?;
    let room = work_room(press);
    if work.len() < room {
        return Err(Reply::WorkShort.answer());
    }
    let asker = Asker {
        press,
        book,
        split: &split,
        masks: &masks,
    };
    asker.add_sheets(run, work, figures);
    work[..room].fill(0);
    Ok(())
}

// The same, with what is answered.
pub(crate) fn report_into(
    press: usize,
    book: &[u8],
    run: &[u8],
    work: &mut [u32],
    figures: &mut [u32],
) -> Answer
    requires { figures_long ≤ length figures.old }
    ensures { telling result work.new figures.new
        ≡ told (report press book.now run.now work.old) figures.old }
{
    match add_run(press, book, run, work, figures) {
        Ok(()) => Reply::Accepted.answer(),
        Err(answer) => answer,
    }
}

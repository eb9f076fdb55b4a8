// Why a sheet is not in the family of a book, as a call.
ghost use Rattle.std.specs.Prelude.{◌≡◌};
ghost use Rattle.reasons.specs.Why.{why_not, Answers, Leaves};
ghost use Rattle.reasons.specs.inner.FromTable.{told_why};

use crate::reason::Reason;
use crate::why;
use books::answer::{Answer, blame, pack};
use books::press::PRESSES;
use books::reply::Reply;
use books::size::ROOM;
use pieces::asking::{ask_sheet, split_book};
use pieces::masks::ALL_MASKS;

/// The answer, and with 0 the reason. A struct, and no Result: `Answers` names both fields, and a C host gets both.
#[derive(Clone, Copy)]
pub struct WhyNot {
    pub answer: Answer,
    pub reason: Reason,
}

// The reason, or the answer that comes with none.
fn explain(press: usize, book: &[u8], sheet: &[u8], work: &mut [u32]) -> Result<Reason, Answer>
    ensures { Answers (why_not press book.now sheet.now work.old) (told_why result) work.new }
{
    if press >= PRESSES {
        return Err(Reply::NoPress.answer());
    }
    let mut masks = [0; ALL_MASKS];
    let split = split_book(book, &mut masks).map_err(|fault| blame(1, fault))?;
    let mut cells = [0; ROOM];
    let asked = ask_sheet(press, book, &split, &masks, sheet, &mut cells, work);
    if asked.answer.number == Reply::Accepted.number() {
        return Err(Reply::InFamily.answer());
    }
    if asked.answer.number != Reply::NotDerived.number() {
        return Err(asked.answer);
    }
    Ok(why::reason(press, &masks, split.joins, split.start, work, asked.size))
}

/// Asks why the family of a book has not a sheet of a press. The work slice gets the table of pieces; where the family has the sheet after all, the answer is
/// 15.
pub fn why_not(press: usize, book: &[u8], sheet: &[u8], work: &mut [u32]) -> WhyNot
    ensures { Answers (why_not press book.now sheet.now work.old) result work.new }
{
    match explain(press, book, sheet, work) {
        Ok(reason) => WhyNot {
            answer: Reply::Accepted.answer(),
            reason,
        },
        Err(answer) => WhyNot {
            answer,
            reason: Reason::NoReason,
        },
    }
}

/// The same for the C host, with the reason as the count.
pub fn dv_why_not(press: usize, book: &[u8], sheet: &[u8], work: &mut [u32]) -> u64
    ensures { Leaves (why_not press book.now sheet.now work.old) result work.new }
{
    let r = why_not(press, book, sheet, work);
    pack(r.answer, r.reason.count())
}

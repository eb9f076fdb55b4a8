// One sheet more in the figures.
ghost use Rattle.std.specs.Prelude.{◌≡◌, ◌≤◌, length};
ghost use Rattle.runs.specs.Figures.{figures_long};
ghost use Rattle.runs.specs.inner.Adding.{count_place, answered, coloured, least_with, ticketed, Answerable, Colourable, with_asked, Addable};

use crate::figures::{ANSWERS_FROM, ANY_AT, CELLS_FROM, GREATEST_AT, LEAST_AT};
use books::reply::Reply;
use pieces::asking::Asked;

// Which of the ten counts an answer has: 11 stands behind 0 to 8.
fn count_of(answer: u8) -> usize
    ensures { result ≡ count_place answer }
{
    if answer == Reply::NotDerived.number() {
        9
    } else {
        answer as usize
    }
}

// A sheet more, with its answer.
fn add_answer(answer: u8, figures: &mut [u32])
    requires { Answerable answer figures.old }
    ensures { figures.new ≡ answered figures.old answer }
{
    figures[0] += 1;
    let at = ANSWERS_FROM + count_of(answer);
    figures[at] += 1;
}

// A cell more of the colour of each cell.
fn add_cells(cells: &[u8], figures: &mut [u32])
    requires { Colourable cells.now figures.old }
    ensures { figures.new ≡ coloured figures.old cells.now }
{
    for cell in cells {
        let at = CELLS_FROM + *cell as usize;
        figures[at] += 1;
    }
}

// The least ticket so far, with one more: the first is the least.
fn least_with(any: u32, least: u32, ticket: u32) -> u32
    ensures { result ≡ least_with any least ticket }
{
    if any == 0 { ticket } else { least.min(ticket) }
}

// The ticket of an accepted sheet.
fn add_ticket(ticket: u32, figures: &mut [u32])
    requires { figures_long ≤ length figures.old }
    ensures { figures.new ≡ ticketed figures.old ticket }
{
    figures[LEAST_AT] = least_with(figures[ANY_AT], figures[LEAST_AT], ticket);
    figures[GREATEST_AT] = figures[GREATEST_AT].max(ticket);
    figures[ANY_AT] = 1;
}

// A sheet that was asked: its answer, and where it is accepted its cells and its ticket.
pub(crate) fn add_asked(r: Asked, cells: &[u8], figures: &mut [u32])
    requires { Addable r cells.now figures.old }
    ensures { figures.new ≡ with_asked figures.old r cells.now }
{
    add_answer(r.answer.number, figures);
    if r.answer.number == Reply::Accepted.number() {
        add_cells(&cells[..r.size.rows * r.size.cols], figures);
        add_ticket(r.ticket as u32, figures);
    }
}

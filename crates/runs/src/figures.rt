// The figures of a run, by name, and one after another in a slice.
ghost use Rattle.std.specs.Prelude.{◌≡◌, ◌≤◌, length};
ghost use Rattle.runs.specs.Figures.{figures_long};
ghost use Rattle.runs.specs.inner.Adding.{standing};

use names::colours::MOST_COLOURS;

// How many answers a sheet can get: 0 to 8 and 11.
const ANSWER_COUNTS: usize = 10;

// Where the figures stand in a slice: the number of sheets, the counts of answers, the cells of each colour that a book can have, whether there is an
// accepted sheet, and the least and the greatest ticket. A C host reads them at these places.
pub(crate) const ANSWERS_FROM: usize = 1;

pub(crate) const CELLS_FROM: usize = ANSWERS_FROM + ANSWER_COUNTS;

pub(crate) const ANY_AT: usize = CELLS_FROM + MOST_COLOURS;

pub(crate) const LEAST_AT: usize = ANY_AT + 1;

pub(crate) const GREATEST_AT: usize = ANY_AT + 2;

pub(crate) const FIGURES_LONG: usize = ANY_AT + 3;

/// The number of sheets; how many got each of the answers 0 to 8 and 11; the cells of each book colour over accepted sheets; 1 where some sheet is
/// accepted, else 0; and the least and the greatest ticket among the accepted sheets, or 0. Numbers, and no Option: `figures_of` names them, and a C host
/// gets them so.
#[derive(Clone, Copy)]
pub struct Figures {
    pub sheets: u32,
    pub answers: [u32; ANSWER_COUNTS],
    pub cells: [u32; MOST_COLOURS],
    pub any: u32,
    pub least: u32,
    pub greatest: u32,
}

// The figures that stand in a slice, by name.
pub(crate) fn named(figures: &[u32]) -> Figures
    requires { figures_long ≤ length figures.now }
    ensures { result ≡ standing figures.now }
{
    let mut answers = [0u32; ANSWER_COUNTS];
    answers.copy_from_slice(&figures[ANSWERS_FROM..CELLS_FROM]);
    let mut cells = [0u32; MOST_COLOURS];
    cells.copy_from_slice(&figures[CELLS_FROM..ANY_AT]);
    Figures {
        sheets: figures[0],
        answers,
        cells,
        any: figures[ANY_AT],
        least: figures[LEAST_AT],
        greatest: figures[GREATEST_AT],
    }
}

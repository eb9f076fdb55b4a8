// How the slots of the two parts of a piece run from cut to cut, so that no cut has to work them out anew.
ghost use Rattle.std.specs.Prelude.{◌≡◌};
ghost use Rattle.pieces.specs.inner.Room.{Lies, Slotted};
ghost use Rattle.pieces.specs.inner.Course.{step, Steps, Spans, course_of};

use crate::part::reach;
use crate::piece::{Piece, stretches_of, times};
use books::rule::Dir;
use books::size::Size;

// The first part's slot rises, each time by less, and the second part's falls, each time by as much more, so that the two steps together are the same at
// every cut. `second` is a cut behind: before the first cut it is the slot of the whole piece.
#[derive(Clone, Copy)]
pub(crate) struct Course {
    pub(crate) cuts: usize,
    pub(crate) first: usize,
    pub(crate) rise: usize,
    pub(crate) second: usize,
    pub(crate) both: usize,
    pub(crate) change: usize,
}

// What a direction makes of a piece and its sheet: the cells of the sheet in it, by how much the steps change, and by how much a step of the first part and one
// of the second fall short of a whole block.
#[derive(Clone, Copy)]
struct Span {
    cells: usize,
    change: usize,
    short: usize,
    shorter: usize,
}

impl Span {
    fn of(size: Size, p: Piece, d: Dir) -> Self
        requires { Lies size.rows size.cols p }
        ensures { Spans d size.rows size.cols p result }
    {
        match d {
            Dir::Across => Span {
                cells: size.cols,
                change: size.rows - (p.height - 1),
                short: p.top,
                shorter: p.top + 1,
            },
            Dir::Down => Span {
                cells: size.rows,
                change: stretches_of(size.cols, size.cols),
                short: stretches_of(size.cols, p.width - 1),
                shorter: stretches_of(size.cols, p.width),
            },
        }
    }
}

impl Course {
    // The course of the cuts of a piece in its slot, in a direction.
    #[inline(always)]
    pub(crate) fn begin(size: Size, p: Piece, slot: usize, d: Dir) -> Self
        requires { Slotted size.rows size.cols p slot }
        ensures { result ≡ course_of d size.rows size.cols p }
    {
        let s = Span::of(size, p, d);
        let long = reach(p, d);
        let first = p.first_part(d, 1).slot(size);
        let rise = times(s.cells, s.change) - s.short;
        let fall = times(s.cells + 2 - long, s.change) - s.shorter;
        Course {
            cuts: long - 1,
            first,
            rise,
            second: slot,
            both: rise + fall,
            change: s.change,
        }
    }

    // From one cut to the next.
    pub(crate) fn step(self) -> Self
        requires { Steps self }
        ensures { result ≡ step self }
    {
        Course {
            first: self.first + self.rise,
            rise: self.rise - self.change,
            second: self.second + self.rise - self.both,
            ..self
        }
    }
}

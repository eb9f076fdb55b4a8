// The table is filled by slots rising: the parts of a piece have smaller slots than the piece. The loops count the trials that they make.
ghost use Rattle.std.specs.Prelude.{◌≡◌, ◌≤◌, ◌<◌, ◌^◌, ◌+◌, length};
ghost use Rattle.pieces.specs.Firing.{joins_fired};
ghost use Rattle.pieces.specs.inner.Room.{Slotted};

use crate::course::Course;
use crate::masks::{Joined, Masks, Rows};
use crate::piece;
use crate::piece::Piece;
use books::rule::Dir;
use books::size::Size;

// A piece of a sheet, and its slot.
#[derive(Clone, Copy)]
pub(crate) struct Placed {
    pub(crate) size: Size,
    pub(crate) piece: Piece,
    pub(crate) slot: usize,
    ghost here: { Slotted size.rows size.cols piece slot },
}

impl<'a> Rows<'a> {
    ghost use Rattle.pieces.specs.inner.Along.{also_along, AlongDue};

    // Every join at every cut of a piece, beside what was found of it before.
    fn join_along(&self, work: &[u32], course: Course, before: Joined) -> Joined
        requires { AlongDue (length work.now) self.now.count course before }
        ensures { result ≡ also_along work.now self.now.masks.now self.now.count course before }
    {
        let mut found = before.heads;
        let mut trials = before.trials;
        let mut c = course;
        // Counted down: counted up, a derivation takes 7 % more instructions.
        for _ahead in (0..course.cuts).rev() {
            let a = c.first;
            c = c.step();
            let b = c.second;
            let j = self.join(work[a], work[b]);
            found |= j.heads;
            trials += j.trials;
        }
        Joined {
            heads: found,
            trials,
        }
    }
}

impl<'a> Masks<'a> {
    ghost use Rattle.pieces.specs.Pieces.{total};
    ghost use Rattle.pieces.specs.Filling.{entry_of, joined_by, filled_by};
    ghost use Rattle.pieces.specs.inner.Tally.{joined, tried_at, tried_by};
    ghost use Rattle.pieces.specs.inner.ForTable.{FillDue};
    ghost use Rattle.pieces.specs.inner.Seen.{Tabled};

    // The entry of a piece of more than one cell, from the entries of its parts; its trials are added to those before.
    #[inline(always)]
    pub(crate) fn entry_of(&self, work: &[u32], x: Placed, trials: usize) -> Joined
        requires entries { total x.size.rows x.size.cols ≤ length work.now }
        requires few { trials + tried_at self.now.joins x.piece < 2 ^ 32 }
        ensures { result ≡ joined (entry_of (joins_fired self.now.masks.now self.now.joins) x.size.rows x.size.cols work.now x.piece)
            (trials + tried_at self.now.joins x.piece) }
    {
        let down = Course::begin(x.size, x.piece, x.slot, Dir::Down);
        let before = Joined { heads: 0, trials };
        let found = self.rows(Dir::Down).join_along(work, down, before);
        let across = Course::begin(x.size, x.piece, x.slot, Dir::Across);
        self.rows(Dir::Across).join_along(work, across, found)
    }

    // Every entry of a table that begins with those of the cells. Answers the number of trials.
    #[inline(always)]
    fn fill(&self, work: &mut [u32], size: Size) -> usize
        requires { Tabled size work.old }
        ensures { (work.new ≡ joined_by (joins_fired self.now.masks.now self.now.joins) size.rows size.cols work.old)
            × (result ≡ tried_by self.now.joins size.rows size.cols) }
    {
        let end = piece::count(size);
        let mut p = Piece::cell(size.rows - 1, size.cols - 1).next(size);
        let mut trials = 0;
        for k in piece::times(size.rows, size.cols)..end {
            let x = Placed {
                size,
                piece: p,
                slot: k,
            };
            let e = self.entry_of(work, x, trials);
            trials = e.trials;
            p = p.next(size);
            work[k] = e.heads;
        }
        trials
    }

    // The table of a sheet, by the numbers that the colours of its cells have among the masks. Answers the number of trials.
    #[inline(always)]
    pub(crate) fn fill_from(&self, colours: &[u8], size: Size, work: &mut [u32]) -> usize
        requires { FillDue size work.old colours.now }
        ensures { (work.new ≡ filled_by self.now.masks.now self.now.joins colours.now size.rows size.cols work.old)
            × (result ≡ tried_by self.now.joins size.rows size.cols) }
    {
        self.paint_cells(colours, piece::times(size.rows, size.cols), work);
        self.fill(work, size)
    }
}

// The table of the pieces of a sheet, and the cuts of a piece by its bits.
ghost use Rattle.std.specs.Prelude.{◌≡◌};
ghost use Rattle.pieces.specs.inner.Seen.{Tabled, On, BothOn, has_bit, both_have, whole_of};
ghost use Rattle.books.specs.Reply.{number_of};
ghost use Rattle.pieces.specs.Asking.{start_answer};

use crate::part::{Part, Parts};
use crate::piece::Piece;
use books::reply::Reply;
use books::size::Size;
use names::word::is_set;

// An entry for each piece of a sheet, and maybe more.
#[derive(Clone, Copy)]
pub(crate) struct Table<'a> {
    pub(crate) size: Size,
    pub(crate) entries: &'a [u32],
    ghost tabled: { Tabled size entries.now },
}

impl<'a> Table<'a> {
    // Whether a motif has its bit set at a piece.
    #[tactic(auto, unfolding(crate::specs::inner::Seen::has_bit, crate::specs::Largest::marked))]
    pub(crate) fn has(&self, x: Part) -> bool
        requires { On self.now.size x.piece }
        ensures { result ≡ has_bit self.now.size self.now.entries.now x.motif x.piece }
    {
        is_set(self.entries[x.piece.slot(self.size)], x.motif)
    }

    // Whether both parts of a cut have their bits.
    #[tactic(auto, unfolding(names::specs::Pick::and_then))]
    pub(crate) fn both_have(&self, parts: Parts) -> bool
        requires { BothOn self.now.size parts }
        ensures { result ≡ both_have (has_bit self.now.size self.now.entries.now) parts }
    {
        self.has(parts.first) && self.has(parts.rest)
    }

    // Whether a motif has its bit at the whole sheet.
    #[tactic(auto, unfolding(crate::specs::inner::Seen::has_bit))]
    pub(crate) fn whole(&self, motif: u8) -> bool
        ensures { result ≡ has_bit self.now.size self.now.entries.now motif (whole_of self.now.size) }
    {
        let piece = Piece::whole(self.size);
        self.has(Part { piece, motif })
    }

    // What is answered where a motif is the start: whether its sheet belongs to the family.
    #[tactic(auto, unfolding(crate::specs::Asking::start_answer, crate::specs::inner::Seen::has_bit))]
    pub(crate) fn reply(&self, start: u8) -> Reply
        ensures { number_of result ≡ start_answer self.now.size.rows self.now.size.cols self.now.entries.now start }
    {
        if self.whole(start) {
            Reply::Accepted
        } else {
            Reply::NotDerived
        }
    }
}

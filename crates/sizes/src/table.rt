// Which motifs have each size: a table with an entry for each size, row by row, of as many columns as are asked for. The parts of a size stand before it.
ghost use Rattle.std.specs.Prelude.{◌≡◌, ◌+◌, ◌*◌, ◌≤◌, ◌<◌, length};

use books::rule::Dir;
use names::word::is_set;
use pieces::masks;
use pieces::masks::Joins;

// What fills a table of sizes: the masks of a family, and the columns that the table has.
#[derive(Clone, Copy)]
pub(crate) struct Filler<'a> {
    masks: &'a [u32],
    joins: Joins,
    cols: usize,
    ghost cols_some: { 1 ≤ cols },
}

impl<'a> Filler<'a> {
    ghost use Rattle.std.specs.Prelude.{replicate};
    ghost use Rattle.books.specs.Size.{room};
    ghost use Rattle.pieces.specs.Firing.{fire_of, painted_of};
    ghost use Rattle.sizes.specs.Table.{slot_size, entry_of, sizes_by, last_by};
    ghost use Rattle.sizes.specs.inner.Along.{along};
    ghost use Rattle.sizes.specs.inner.Entries.{SizesDue};

    pub(crate) fn new(masks: &'a [u32], joins: Joins, cols: usize) -> Self
        requires { 1 ≤ cols }
        ensures masks { result.masks ≡ masks.entry }
        ensures joins { result.joins ≡ joins }
        ensures cols { result.cols ≡ cols }
    {
        Filler { masks, joins, cols }
    }

    // Every join of one direction at every cut of a size: from cut to cut the first part goes on from its first entry, and the second back from the entry due.
    #[inline(always)]
    fn along(
        &self,
        sizes: &[u32],
        d: Dir,
        first: usize,
        due: usize,
        step: usize,
        cuts: usize,
    ) -> u32
        requires { (first + cuts * step ≡ due) × (due < length sizes.now) }
        ensures { result ≡ along (fire_of self.now.masks.now self.now.joins d) sizes.now first due step cuts }
    {
        let mut found = 0u32;
        for k in 0..cuts {
            let l = sizes[first + k * step];
            let r = sizes[due - (k + 1) * step];
            found |= masks::fire(self.masks, self.joins, d, l, r);
        }
        found
    }

    // The entry of a size of more than 1 by 1, from the entries of its parts.
    #[inline(always)]
    fn entry_at(&self, sizes: &[u32], due: usize) -> u32
        requires { due < length sizes.now }
        ensures { result ≡ entry_of (fire_of self.now.masks.now self.now.joins) self.now.cols sizes.now
            (slot_size self.now.cols due) }
    {
        let row = due / self.cols;
        let col = due % self.cols;
        let beside = self.along(sizes, Dir::Across, due - col, due, 1, col);
        let above = self.along(sizes, Dir::Down, col, due, self.cols, row);
        beside | above
    }

    // The entries before a slot: 1 by 1 has the painters, and every other size what the joins make of the entries before it. With the hints the masks are
    // looked at once for all sizes: without them a card of a book with no joins takes seven times as long.
    #[inline(always)]
    pub(crate) fn fill(&self, sizes: &mut [u32], end: usize)
        requires { SizesDue end (length sizes.old) }
        ensures { sizes.new ≡ sizes_by (fire_of self.now.masks.now self.now.joins)
            (painted_of self.now.masks.now) self.now.cols end sizes.old }
    {
        sizes[0] = masks::painted(self.masks);
        for due in 1..end {
            let e = self.entry_at(sizes, due);
            sizes[due] = e;
        }
    }

    // Whether a motif has the last of so many sizes, by an array that has room for them.
    pub(crate) fn last_has<const N: usize>(&self, motif: u8, end: usize) -> bool
        requires { SizesDue end N × (N ≤ room) }
        ensures { result ≡ last_by self.now.masks.now self.now.joins motif self.now.cols end
            (replicate N 0) }
    {
        let mut sizes = [0u32; N];
        self.fill(&mut sizes, end);
        is_set(sizes[end - 1], motif)
    }
}

// The entries of the cells of a sheet, by the numbers that their colours have in the book: the motifs that paint them.
ghost use Rattle.std.specs.Prelude.{◌≡◌, length};

use crate::masks::{Masks, PAINTERS_FROM};

impl<'a> Masks<'a> {
    ghost use Rattle.pieces.specs.Filling.{painted_by};
    ghost use Rattle.pieces.specs.inner.ForTable.{PaintDue};

    // The entries of the first so many cells, by the masks of their colours.
    pub(crate) fn paint_cells(&self, colours: &[u8], count: usize, work: &mut [u32])
        requires { PaintDue colours.now count (length work.old) }
        ensures { work.new ≡ painted_by self.now.masks.now colours.now count work.old }
    {
        let painted = &colours[..count];
        for (i, colour) in painted.iter().enumerate() {
            work[i] = self.masks[PAINTERS_FROM + usize::from(*colour)];
        }
    }
}

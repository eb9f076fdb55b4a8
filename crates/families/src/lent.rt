// A lent book with its family, and what reading tells of them.
ghost use Rattle.std.proofs.Props.{props};
ghost use Rattle.families.specs.inner.Lent.{Lent};
ghost use Rattle.families.specs.inner.Props.{BodyFits-prop, Distinct-prop};

use books::family::Family;

// The colours are places in the book.
#[derive(Clone, Copy)]
pub(crate) struct LentBook<'a> {
    pub(crate) bytes: &'a [u8],
    pub(crate) family: &'a Family,
    ghost lent: { Lent bytes.now family.now } by { Prim.hlevel (props, BodyFits-prop, Distinct-prop) },
}

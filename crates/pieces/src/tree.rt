// The derivation given: the tree of a sheet, written from the table of its pieces. At every node of it a rule fits, so that the writer cannot fail:
// `every-node-fits` in proofs/Judging.antt says why.
ghost use Rattle.std.specs.Prelude.{[], ◌∷◌};
ghost use Rattle.pieces.specs.inner.Due.{NodeDue, TreeDue, PartsDue, SheetDue};
ghost use Rattle.pieces.specs.inner.Seen.{whole_of};
ghost use Rattle.pieces.specs.inner.Known.{view_of};
ghost use Rattle.pieces.specs.inner.TreeWrote.{TreeWrote, PartWrote, PartsWrote};
ghost use Rattle.books.specs.Reply.{number_of};
ghost use Rattle.pieces.specs.inner.Verdict.{verdict, Judges};

use crate::choice::{Choice, Chooser};
use crate::part::{Part, Parts, parts_of};
use crate::piece::Piece;
use books::reply::Reply;

// A node, at its place: the rule and the cut. The place after it is answered.
fn put_node(tree: &mut [u16], at: usize, rule: usize, cut: usize) -> usize
    requires { NodeDue rule cut at tree.old }
    ensures { TreeWrote tree.old tree.new at (rule ∷ cut ∷ []) result }
{
    tree[at] = rule as u16;
    tree[at + 1] = cut as u16;
    at + 2
}

impl<'a> Chooser<'a> {
    // The tree of a part, from a place on: its rule and cut, and then its own parts. The place after the tree is answered.
    #[cycle(pick_node_write_parts)]
    fn pick_node(&self, x: Part, tree: &mut [u16], at: usize) -> usize
        requires { TreeDue self.now.table.size (view_of self.now) self.now.rules.now x at tree.old }
        ensures { PartWrote (view_of self.now) self.now.rules.now x at tree.old tree.new result }
    {
        match self.choose(x) {
            Choice::Leaf(rule) => put_node(tree, at, rule, 0),
            Choice::Join {
                rule,
                direction,
                cut,
                first,
                second,
            } => {
                let next = put_node(tree, at, rule, cut);
                self.write_parts(parts_of(x.piece, direction, cut, first, second), tree, next)
            }
        }
    }

    // The trees of the two parts of a join, the second behind the first.
    #[cycle(pick_node_write_parts)]
    fn write_parts(&self, parts: Parts, tree: &mut [u16], at: usize) -> usize
        requires { PartsDue self.now.table.size (view_of self.now) self.now.rules.now parts at tree.old }
        ensures { PartsWrote (view_of self.now) self.now.rules.now parts at tree.old tree.new result }
    {
        let next = self.pick_node(parts.first, tree, at);
        self.pick_node(parts.rest, tree, next)
    }

    // What a filled table answers; where the start motif has its bit at the whole sheet, the tree is written at the start of the slice.
    pub(crate) fn judge(&self, start: u8, tree: &mut [u16]) -> Reply
        requires { SheetDue self.now.table.size (view_of self.now) self.now.rules.now start tree.old }
        ensures { Judges
            (verdict (view_of self.now) self.now.rules.now start (whole_of self.now.table.size) tree.old)
            (number_of result) tree.new }
    {
        if self.table.whole(start) {
            let piece = Piece::whole(self.table.size);
            self.pick_node(
                Part {
                    piece,
                    motif: start,
                },
                tree,
                0,
            );
            return Reply::Accepted;
        }
        Reply::NotDerived
    }
}

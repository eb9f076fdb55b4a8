// A node judged by its motif and its piece.
ghost use Rattle.std.specs.Prelude.{◌≡◌};
ghost use Rattle.pieces.specs.OnSheet.{on_sheet};
ghost use Rattle.trees.specs.inner.Taken.{stepped};

use crate::held::Held;
use crate::node::Node;
use books::rule::{Body, Dir};
use pieces::on_sheet::covers_on;
use pieces::part::{Part, reach};

// What a right node is: a cell, or a join of two parts, of these motifs.
#[derive(Clone, Copy)]
pub(crate) enum Taken {
    Cell,
    Join {
        direction: Dir,
        first: u8,
        second: u8,
    },
}

impl Held {
    ghost use Rattle.trees.specs.Judge.{step};
    ghost use Rattle.trees.specs.inner.Held.{rules_of};

    // How a node is taken for a piece and its motif, if it is right: its rule stands in the book and has the motif for its head; a colour has cut 0, and the
    // piece is one cell of it; the cut of a join leaves no part empty.
    #[tactic(auto, unfolding(crate::specs::Judge::step, crate::specs::Judge::body_step, crate::specs::Judge::join_step, names::specs::Pick::and_then))]
    pub(crate) fn take(&self, due: Part, node: Node) -> Option<Taken>
        ensures { stepped result ≡ step (on_sheet self.now.size self.now.cells) (rules_of self.now) due.motif due.piece node }
    {
        let rule = self.family.rules().get(usize::from(node.rule))?;
        if rule.head != due.motif {
            return None;
        }
        let cut = usize::from(node.cut);
        let (direction, first, second) = match rule.body {
            Body::Colour(colour) => {
                return (cut == 0 && covers_on(&self.cells, self.size, due.piece, colour)).then_some(
                    Taken::Cell,
                );
            }
            Body::Across(left, right) => (Dir::Across, left, right),
            Body::Down(upper, lower) => (Dir::Down, upper, lower),
        };
        (0 < cut && cut < reach(due.piece, direction)).then_some(Taken::Join {
            direction,
            first,
            second,
        })
    }
}

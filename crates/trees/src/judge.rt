// Nodes judged from the top: a node by its motif and its piece, then each part in turn.
ghost use Rattle.std.specs.Prelude.{◌≡◌};
ghost use Rattle.trees.specs.inner.Waiting.{no_part};

use crate::held::Held;
use crate::node::Node;
use crate::step::Taken;
use books::answer::Answer;
use books::reply::Reply;
use pieces::on_sheet::parts_on;
use pieces::part::Part;
use pieces::piece::{MOST, Piece};

// More parts than can wait at once: each has fewer rows and columns in all than the piece whose part it is.
const MOST_WAITING: usize = 2 * MOST;

// Parts of zeros: an array of them is cleared at once, and one that repeats the sheet costs a small tree a twelfth more instructions.
fn no_part() -> Part
    ensures { result ≡ no_part }
{
    Part {
        piece: Piece {
            height: 0,
            width: 0,
            top: 0,
            left: 0,
        },
        motif: 0,
    }
}

impl Held {
    ghost use Rattle.trees.specs.inner.Held.{sheet_of, judged_held, held_answer};

    // The whole sheet, for the start motif.
    fn sheet(&self) -> Part
        ensures { result ≡ sheet_of self.now }
    {
        Part {
            piece: Piece {
                height: self.size.rows,
                width: self.size.cols,
                top: 0,
                left: 0,
            },
            motif: self.family.start as u8,
        }
    }

    // The number of nodes read, where all are right; or the place of the first that fails. The first part of a join is due next, and its second part waits,
    // behind those that wait already; after a cell the part that waited least is due. A function that calls itself for each part takes 1.4 times as many
    // instructions.
    pub(crate) fn judge(&self, nodes: &[Node]) -> Result<usize, usize>
        ensures { result ≡ judged_held self.now nodes.now }
    {
        let mut due = self.sheet();
        // A stack in fixed memory. The kit's `ArrayVec` keeps such an array and count, and asks for a `Default` of `Part`, which has no meaning in `pieces`.
        let mut waiting = [no_part(); MOST_WAITING];
        let mut count = 0;
        for (at, node) in nodes.iter().enumerate() {
            let Some(taken) = self.take(due, *node) else {
                return Err(at);
            };
            match taken {
                Taken::Cell => {
                    if count == 0 {
                        return Ok(at + 1);
                    }
                    count -= 1;
                    due = waiting[count];
                }
                Taken::Join {
                    direction,
                    first,
                    second,
                } => {
                    let cut = usize::from(node.cut);
                    let parts = parts_on(self.size, due.piece, direction, cut, first, second);
                    waiting[count] = parts.rest;
                    count += 1;
                    due = parts.first;
                }
            }
        }
        Err(nodes.len())
    }

    // A wrong tree at the node that fails, or at the number of nodes read where some are left over; else it is accepted.
    #[tactic(auto, unfolding(crate::specs::inner::Held::held_answer))]
    pub(crate) fn answer(&self, nodes: &[Node]) -> Answer
        ensures { result ≡ held_answer self.now nodes.now }
    {
        let place = match self.judge(nodes) {
            Ok(read) if read >= nodes.len() => return Reply::Accepted.answer(),
            Ok(place) | Err(place) => place,
        };
        Answer {
            place,
            ..Reply::WrongTree.answer()
        }
    }
}

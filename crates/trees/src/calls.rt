// A tree that a plug-in lends, as a call.
ghost use Rattle.std.specs.Prelude.{◌≡◌, take};
ghost use Rattle.books.specs.Answer.{packed};
ghost use Rattle.trees.specs.Outcome.{tree_answer};

use crate::held::Held;
use crate::node::{MOST_NODES, Node};
use books::answer::{Answer, pack};

/// Asks whether a row of nodes is a tree that derives a sheet of a press from the start motif of a book, with nothing left over.
pub fn check_tree(press: usize, book: &[u8], sheet: &[u8], nodes: &[Node]) -> Answer
    ensures { result ≡ tree_answer press book.now sheet.now nodes.now }
{
    match Held::read(press, book, sheet) {
        Ok(held) => held.answer(nodes),
        Err(answer) => answer,
    }
}

/// The same of the first so many nodes of a row by value, or of all where there are fewer.
pub fn check_copied(
    press: usize,
    book: &[u8],
    sheet: &[u8],
    nodes: [Node; MOST_NODES],
    count: usize,
) -> Answer
    ensures { result ≡ tree_answer press book.now sheet.now (take count nodes) }
{
    check_tree(press, book, sheet, &nodes[..count.min(MOST_NODES)])
}

/// The same for the C host.
pub fn dv_check_tree(press: usize, book: &[u8], sheet: &[u8], nodes: &[Node]) -> u64
    ensures { result ≡ packed (tree_answer press book.now sheet.now nodes.now) 0 }
{
    pack(check_tree(press, book, sheet, nodes), 0)
}

// The calls that ask whether a sheet belongs to a family, and how it comes apart.
ghost use Rattle.std.specs.Prelude.{◌≡◌};
ghost use Rattle.books.specs.Answer.{packed};
ghost use Rattle.pieces.specs.Derivation.{derivation, LeavesPacked};
ghost use Rattle.plain.specs.Outcome.{plain_answer};
ghost use Rattle.trees.specs.Outcome.{tree_answer};

use trees::node::Node;

/// Whether a sheet belongs to a family, with the table of its pieces and the derivation given.
#[unsafe(no_mangle)]
pub extern "C" fn dv_derive(
    press: usize,
    book: &[u8],
    sheet: &[u8],
    work: &mut [u32],
    tree: &mut [u16],
) -> u64
    ensures { LeavesPacked (derivation press book.now sheet.now work.old tree.old)
        result work.new tree.new }
{
    pieces::derive::dv_derive(press, book, sheet, work, tree)
}

/// Whether a row of nodes is a tree that derives a sheet.
#[unsafe(no_mangle)]
pub extern "C" fn dv_check_tree(press: usize, book: &[u8], sheet: &[u8], nodes: &[Node]) -> u64
    ensures { result ≡ packed (tree_answer press book.now sheet.now nodes.now) 0 }
{
    trees::calls::dv_check_tree(press, book, sheet, nodes)
}

/// Whether a small sheet belongs to a family, by the plain search.
#[unsafe(no_mangle)]
pub extern "C" fn dv_plain(press: usize, book: &[u8], sheet: &[u8]) -> u64
    ensures { result ≡ packed (plain_answer press book.now sheet.now) 0 }
{
    plain::calls::dv_plain(press, book, sheet)
}

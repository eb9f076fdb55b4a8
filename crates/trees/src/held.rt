// What a tree is held to: a book and a sheet that are read together.
ghost use Rattle.std.specs.Prelude.{◌≤◌, ◌<◌};
ghost use Rattle.books.specs.Keeps.{most_rules, most_motifs};
ghost use Rattle.books.specs.Size.{Within};
ghost use Rattle.pieces.specs.Most.{most};

use books::family::Family;
use books::size::{ROOM, Size};

// The first rows times columns cells stand, each by the number that its colour has in the book.
#[derive(Clone, Copy)]
pub(crate) struct Held {
    pub(crate) family: Family,
    pub(crate) size: Size,
    pub(crate) cells: [u8; ROOM],
    ghost rules_few: { family.count ≤ most_rules },
    ghost start_few: { family.start < most_motifs },
    ghost sizes: { Within most size.rows size.cols },
}

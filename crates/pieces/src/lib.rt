// The table of the pieces of a sheet, the derivation given, and a book asked for one sheet after another.
#![tactic(auto)]

pub mod asking;
mod cells;
mod choice;
mod course;
mod cut;
pub mod derive;
pub mod largest;
pub mod masks;
pub mod on_sheet;
pub mod part;
pub mod piece;
mod pieces;
pub mod refill;
mod table;
mod tree;

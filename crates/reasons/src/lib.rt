// Why a sheet is not in the family of a book.
#![tactic(auto)]

pub mod calls;
pub mod reason;
mod unnamed;
mod why;

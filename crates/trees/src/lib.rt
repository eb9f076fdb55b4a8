// Trees that a plug-in chose, held to a book and a sheet.
#![tactic(auto)]

pub mod calls;
mod held;
mod judge;
pub mod node;
mod read;
mod step;

// The figures of a whole run of sheets against one book.
#![tactic(auto)]

pub mod calls;
mod counting;
pub mod figures;
mod framing;
pub mod numbered;
mod report;

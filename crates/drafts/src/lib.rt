// A book to be written: measured, then written into a lent slice.
#![tactic(auto)]

mod copying;
pub mod draft;
mod writer;
pub mod writing;

// The size card of a family: which sizes its sheets have.
#![tactic(auto)]

pub mod calls;
mod card;
pub mod one;
mod table;

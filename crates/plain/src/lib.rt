// A second engine, with no table: it tries every rule and every cut, and asks the same of the two smaller pieces.
#![tactic(auto)]

pub mod calls;
mod search;

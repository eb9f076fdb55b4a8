// Numbers, names and colour lists: read, compared and written; slices cleared, and bits of a word told. Every function answers on every input.
#![tactic(auto)]

pub mod colours;
pub mod fault;
pub mod name;
pub mod number;
pub mod numbered;
pub mod reader;
pub mod slice;
pub mod word;

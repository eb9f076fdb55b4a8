// Tidying a book: motifs that no sheet needs are dropped, and later copies of equal rules.
#![tactic(auto)]

pub mod calls;
mod clearing;
mod marking;
mod untidy;

// The eight combinations, and what each holds.
#![tactic(auto)]

mod answering;
mod asked;
pub mod calls;
mod changing;
mod gathering;
mod lent;
mod making;
mod merge;
mod rules;

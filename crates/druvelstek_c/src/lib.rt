// The calls for a host in C, as `include/druvelstek.h` declares them: each calls the library's function of its name, and states its clauses again.
#![tactic(auto)]

mod cards;
mod combining;
mod explaining;
mod judging;
mod looking_up;
mod reading;
mod recolouring;
mod reports;

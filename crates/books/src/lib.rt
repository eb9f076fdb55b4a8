// Books and sheets: their contents, reading and spelling, and what a family derives.
#![tactic(auto)]

pub mod answer;
pub mod book;
pub mod calls;
mod cells;
mod counts;
pub mod equal;
pub mod family;
pub mod lent;
mod listed;
pub mod numbering;
pub mod press;
pub mod reply;
pub mod rule;
mod rules;
pub mod sheet;
pub mod size;

// The house example and the edge cases of the rules, run through the calls that a host makes. The file stdin has the cases, a line each, and the file stdout
// what comes of them, so that it can be held against docs/RULES.md.
#![tactic(auto)]

mod asking;
mod cards;
mod combining;
mod engines;
mod judging;
mod kinds;
mod lent;
mod lines;
mod painting;
mod printing;
mod reading;
mod reports;
mod spelling;
mod why;

use std::io;

fn main(rt: HostRuntime) -> io::Result<()> {
    let mut list = [0u8; 65536];
    let length = input::fill(&mut rt.reader(), &mut list)?;
    kinds::each(&rt, &list[..length])
}

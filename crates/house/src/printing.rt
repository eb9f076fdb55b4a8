// Answers and numbers on the standard output.
use crate::lent;
use std::fmt::Display;
use std::io;

// A call's answer: number, blamed input and place.
pub(crate) fn answer(rt: &impl Print, packed: u64) -> io::Result<()> {
    let number = packed % 256;
    let blamed = packed / 256 % 16;
    let place = packed / 4096 % 1048576;
    print!(rt; ": {number} {blamed} {place}")
}

// The same, and the count that the call answers.
pub(crate) fn answer_and_count(rt: &impl Print, packed: u64) -> io::Result<()> {
    answer(rt, packed)?;
    print!(rt; "; {}", packed / 4294967296)
}

// How much of a work slice was written.
pub(crate) fn written(rt: &impl Print, work: &[u32]) -> io::Result<()> {
    print!(rt; "; {}", lent::written(work, u32::MAX))
}

// Numbers to the end of the line.
pub(crate) fn numbers<T: Display>(rt: &impl Print, numbers: &[T]) -> io::Result<()> {
    for number in numbers {
        print!(rt; " {number}")?;
    }
    println!(rt)
}

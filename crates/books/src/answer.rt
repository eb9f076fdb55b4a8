// What a call answers.
ghost use Rattle.std.specs.Prelude.{◌≡◌};
ghost use Rattle.names.specs.Fault.{told_fault, told_numbered};
ghost use Rattle.books.specs.Answer.{plain, blaming, packed};

use names::fault::Fault;
use names::numbered::Numbered;

/// A number of the answers in docs/RULES.md, the input it blames (1 the first, 2 the second, 0 neither), and a place in that input.
#[derive(Clone, Copy)]
pub struct Answer {
    pub number: u8,
    pub blamed: u8,
    pub place: usize,
}

/// An answer that blames no input.
pub fn unblamed(number: u8) -> Answer
    ensures { result ≡ plain number }
{
    Answer {
        number,
        blamed: 0,
        place: 0,
    }
}

/// A reader's fault, blamed on an input.
pub fn blame(input: u8, f: Fault) -> Answer
    ensures { result ≡ blaming input (told_fault f) }
{
    Answer {
        number: f.refusal.number(),
        blamed: input,
        place: f.place,
    }
}

/// The same of a fault by any number; where there is no fault, 0, nothing is blamed.
pub fn blame_numbered(input: u8, fault: Numbered) -> Answer
    ensures { result ≡ blaming input (told_numbered fault) }
{
    if fault.number == 0 {
        return unblamed(0);
    }
    Answer {
        number: fault.number,
        blamed: input,
        place: fault.place,
    }
}

/// The answer with the call's own count as the one number that a C host gets: the C interface. Every call's answer fits its bits, so that nothing of it is cut.
pub fn pack(a: Answer, count: usize) -> u64
    ensures { result ≡ packed a count }
{
    let number = u64::from(a.number);
    let blamed = u64::from(a.blamed % 16);
    let place = (a.place % 1048576) as u64;
    number + 256 * blamed + 4096 * place + 4294967296 * ((count % 4294967296) as u64)
}

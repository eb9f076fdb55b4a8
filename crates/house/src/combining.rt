// A new book of lent ones: a combination, or one tidied.
use crate::kinds::Case;
use crate::spelling::Kept;
use crate::{lent, printing};
use std::io;

// How a book is made of one or two.
#[derive(Clone, Copy)]
enum Making {
    EitherOf,
    Beside,
    Run,
    Neat,
    Transposed,
}

impl From<u8> for Making {
    fn from(letter: u8) -> Making {
        match letter {
            b'e' => Making::EitherOf,
            b'b' => Making::Beside,
            b'r' => Making::Run,
            b'n' => Making::Neat,
            _ => Making::Transposed,
        }
    }
}

impl Making {
    fn make(self, first: &[u8], second: &[u8], out: &mut [u8]) -> u64 {
        match self {
            Making::EitherOf => families::calls::dv_either_of(first, second, out),
            Making::Beside => families::calls::dv_beside(first, second, out),
            Making::Run => families::calls::dv_run(first, out),
            Making::Neat => tidy::calls::dv_tidy(first, out),
            Making::Transposed => families::calls::dv_transposed(first, out),
        }
    }
}

// The answer, the bytes of the new book, and how many bytes of the output slice were written. The new book is kept.
pub(crate) fn make(rt: &impl Print, case: Case<'_>, kept: &mut Kept) -> io::Result<()> {
    let mut out = [u8::MAX; 1024];
    let out = &mut out[..lent::room(case.line.number(4), 1024)];
    let making = Making::from(case.line.letter(5));
    let packed = making.make(case.first, case.second, out);
    rt.write_all(case.line.part(1))?;
    printing::answer_and_count(rt, packed)?;
    println!(rt; " {}", lent::written(out, u8::MAX))?;
    kept.keep(b'N', out);
    Ok(())
}

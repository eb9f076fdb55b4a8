// Bytes spelled in words: numbers, letters of names, and capitals for bytes that are kept.
use crate::lines;
use arrayvec::ArrayVec;

// What is kept under each capital, with 255 after it: no byte of a book or a sheet that is kept is 255, and none is longer than 1,024 bytes.
#[derive(Clone, Copy)]
pub(crate) struct Kept {
    rows: [[u8; 1025]; 32],
}

impl Kept {
    pub(crate) fn new() -> Kept {
        Kept {
            rows: [[255; 1025]; 32],
        }
    }

    pub(crate) fn keep(&mut self, capital: u8, bytes: &[u8]) {
        let mut row = [255; 1025];
        for (place, &byte) in row[..1024].iter_mut().zip(bytes) {
            *place = byte;
        }
        self.rows[usize::from(capital % 32)] = row;
    }

    fn under(&self, capital: u8) -> &[u8] {
        lines::upto(&self.rows[usize::from(capital % 32)], 255)
    }
}

// Bytes at the end, as far as there is room.
pub(crate) fn add<const N: usize>(out: &mut ArrayVec<u8, N>, bytes: &[u8]) {
    for &byte in bytes {
        let _ = out.try_push(byte);
    }
}

// A byte, or a byte so many times, as 0*600.
fn numeral<const N: usize>(out: &mut ArrayVec<u8, N>, word: &[u8]) {
    let mut numbers = word.split(|&byte| byte == b'*').map(lines::value);
    let byte = (numbers.next().unwrap_or(0) % 256) as u8;
    let times = numbers.next().unwrap_or(0).max(1);
    for _ in 0..times {
        let _ = out.try_push(byte);
    }
}

// The bytes of one word. A minus takes the last byte away.
fn word<const N: usize>(out: &mut ArrayVec<u8, N>, word: &[u8], kept: &Kept) {
    match word {
        [b'0'..=b'9', ..] => numeral(out, word),
        [capital @ b'A'..=b'Z', ..] => add(out, kept.under(*capital)),
        [b'\'', letters @ ..] => add(out, lines::upto(letters, b'\'')),
        [b'-', ..] => {
            let _ = out.pop();
        }
        _ => {}
    }
}

// Spells the words of a text over an array, and tells how many bytes they are. A byte that a minus takes away stays in the array, behind them.
pub(crate) fn spell_over(text: &[u8], kept: &Kept, room: &mut [u8; 64]) -> usize {
    let mut out = ArrayVec::<u8, 64>::new();
    for one in text.split(|&byte| byte == b' ') {
        word(&mut out, one, kept);
        for (place, &byte) in room.iter_mut().zip(out.as_slice()) {
            *place = byte;
        }
    }
    out.len()
}

// The bytes that the words of a text spell, as far as there is room, in place of those that were there. They are lent: by value all of the room would be
// copied.
pub(crate) fn spell<const N: usize>(text: &[u8], kept: &Kept, out: &mut ArrayVec<u8, N>) {
    out.clear();
    for one in text.split(|&byte| byte == b' ') {
        word(out, one, kept);
    }
}

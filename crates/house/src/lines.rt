// A line of the list taken apart. Its parts stand between bars, each bar with a blank after it.

// The text up to a mark, or all of it where it has none.
pub(crate) fn upto(text: &[u8], mark: u8) -> &[u8] {
    match text.iter().position(|&byte| byte == mark) {
        Some(end) => &text[..end],
        None => text,
    }
}

// The number that a text has in digits, 0 where it has none. Six digits are enough here.
pub(crate) fn value(text: &[u8]) -> usize {
    let mut number = 0;
    for &byte in text {
        if let b'0'..=b'9' = byte {
            number = number % 100000 * 10 + usize::from(byte - b'0');
        }
    }
    number
}

#[derive(Clone, Copy)]
pub(crate) struct Line<'a> {
    pub(crate) text: &'a [u8],
}

impl<'a> Line<'a> {
    // A part of the line, by its number, or nothing past the last.
    pub(crate) fn part(self, number: usize) -> &'a [u8] {
        let mut rest = self.text;
        for _ in 0..number {
            rest = rest.get(upto(rest, b'|').len() + 2..).unwrap_or(&[]);
        }
        upto(rest, b'|')
    }

    // The number that a part of the line has.
    pub(crate) fn number(self, part: usize) -> usize {
        value(self.part(part))
    }

    // The first letter of a part of the line, or 0 where the part is empty.
    pub(crate) fn letter(self, part: usize) -> u8 {
        self.part(part).first().copied().unwrap_or(0)
    }
}

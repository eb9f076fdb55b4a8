// A rule is a head motif with one of three bodies.

/// The greatest count of motifs, and of rules, in a book.
pub const MOST_MOTIFS: usize = 32;

pub const MOST_RULES: usize = 200;

/// The two ways of joining: side by side, or one above the other.
#[derive(Clone, Copy)]
pub enum Dir {
    Across,
    Down,
}

/// A colour; a left and a right motif; an upper and a lower motif.
#[derive(Clone, Copy)]
pub enum Body {
    Colour(u8),
    Across(u8, u8),
    Down(u8, u8),
}

#[derive(Clone, Copy)]
pub struct Rule {
    pub head: u8,
    pub body: Body,
}

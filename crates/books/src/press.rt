// The presses: 0 is the present one, and 1 the wide one. A press stays a number, since a C host gives one and `greatest_of` says what holds where there is no such press.
ghost use Rattle.std.specs.Prelude.{◌≡◌};
ghost use Rattle.books.specs.Press.{greatest_of};

pub const PRESSES: usize = 2;

/// The greatest number of rows, and of columns, of the widest press.
pub const WIDEST: usize = 24;

/// That of a press. There is no other: no sheet is read on one.
#[tactic(auto, unfolding(crate::specs::Press::greatest_of))]
pub fn greatest(press: usize) -> usize
    ensures { result ≡ greatest_of press }
{
    match press {
        0 => 12,
        1 => WIDEST,
        _ => 0,
    }
}

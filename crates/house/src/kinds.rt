// Each line of the list is run by the call that it is for, which its first letter says, on the press whose number follows.
ghost use Rattle.std.specs.Prelude.{◌*◌, ◌^◌, ◌<◌};

use crate::lines::Line;
use crate::spelling::{self, Kept};
use crate::{asking, cards, combining, engines, judging, lent, painting, reading, reports, why};
use arrayvec::ArrayVec;
use std::io;

// What a line is for. One that begins with no letter of the list is passed over.
#[derive(Clone, Copy)]
enum Kind {
    Keep,
    Make,
    Lent,
    Paint,
    Derive,
    Table,
    Number,
    Card,
    WhyNot,
    Run,
    Unaided,
    All,
    Book,
    Sheet,
    Grid,
    Ink,
    Figures,
    Equal,
    Heading,
    Passed,
}

impl From<u8> for Kind {
    fn from(letter: u8) -> Kind {
        match letter {
            b'k' => Kind::Keep,
            b'm' => Kind::Make,
            b'l' => Kind::Lent,
            b'p' => Kind::Paint,
            b'd' => Kind::Derive,
            b't' => Kind::Table,
            b'n' => Kind::Number,
            b'c' => Kind::Card,
            b'w' => Kind::WhyNot,
            b'r' => Kind::Run,
            b'u' => Kind::Unaided,
            b'a' => Kind::All,
            b'b' => Kind::Book,
            b's' => Kind::Sheet,
            b'g' => Kind::Grid,
            b'i' => Kind::Ink,
            b'f' => Kind::Figures,
            b'e' => Kind::Equal,
            b'h' => Kind::Heading,
            _ => Kind::Passed,
        }
    }
}

// A line with the press and the two inputs that it names.
#[derive(Clone, Copy)]
pub(crate) struct Case<'a> {
    pub(crate) line: Line<'a>,
    pub(crate) press: usize,
    pub(crate) first: &'a [u8],
    pub(crate) second: &'a [u8],
}

// The words of a line, and what comes of it with as much of a work slice as it says.
fn asked(rt: &impl Print, kind: Kind, case: Case<'_>, work: &mut [u32]) -> io::Result<()> {
    let room = lent::room(case.line.number(4), work.len());
    let work = &mut work[..room];
    rt.write_all(case.line.part(1))?;
    match kind {
        Kind::Derive => asking::derive(rt, case, work),
        Kind::Table => asking::table(rt, case, work),
        Kind::Number => asking::trials(rt, case, work),
        Kind::Card => cards::card(rt, case, work),
        Kind::WhyNot => why::why_not(rt, case, work),
        Kind::Run => reports::run(rt, case, work),
        Kind::Unaided => engines::plain(rt, case),
        Kind::All => engines::both(rt, case, work),
        Kind::Book => reading::book(rt, case),
        Kind::Sheet => reading::sheet(rt, case),
        Kind::Grid => reading::grid(rt, case),
        Kind::Ink => reading::ink(rt, case),
        Kind::Figures => reading::figures(rt, case),
        Kind::Equal => reading::equal(rt, case),
        Kind::Heading => println!(rt),
        _ => Ok(()),
    }
}

// Filling more entries than the press of a line can need would take most of the time.
fn lend<const ENTRIES: usize>(rt: &impl Print, kind: Kind, case: Case<'_>) -> io::Result<()>
    requires { ENTRIES * 4 < 2 ^ 63 }
{
    let mut work = [u32::MAX; ENTRIES];
    asked(rt, kind, case, &mut work)
}

// What is kept is changed by lines of three kinds only.
fn run(rt: &impl Print, case: Case<'_>, kept: &mut Kept) -> io::Result<()> {
    match Kind::from(case.line.letter(0)) {
        Kind::Keep => {
            kept.keep(case.line.text.get(5).copied().unwrap_or(0), case.first);
            Ok(())
        }
        Kind::Make => combining::make(rt, case, kept),
        Kind::Lent => judging::judge(rt, case, kept),
        Kind::Paint => painting::paint(rt, case, kept),
        // There are more entries than a sheet of press 0 can need, or more than one of any press can.
        kind if case.press == 0 => lend::<6086>(rt, kind, case),
        kind => lend::<90002>(rt, kind, case),
    }
}

// The lines of a list, in their order.
pub(crate) fn each(rt: &impl Print, list: &[u8]) -> io::Result<()> {
    let mut kept = Kept::new();
    let mut first = ArrayVec::<u8, 1024>::new();
    let mut second = ArrayVec::<u8, 65537>::new();
    for text in list.split(|&byte| byte == b'\n') {
        let line = Line { text };
        spelling::spell(line.part(2), &kept, &mut first);
        spelling::spell(line.part(3), &kept, &mut second);
        let case = Case {
            line,
            press: line.number(0),
            first: &first,
            second: &second,
        };
        run(rt, case, &mut kept)?;
    }
    Ok(())
}

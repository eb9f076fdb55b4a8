// A colour list: a count, then each name with its length before it. No name stands twice.
ghost use Rattle.std.specs.Prelude.{◌≡◌, ◌<◌, take, drop, IfOk, IfErr, IfSome};
ghost use Rattle.names.specs.Fault.{told_fault};
ghost use Rattle.names.specs.Name.{same_name};
ghost use Rattle.names.specs.Colours.{list_of, find_name, no_colours, refused_colours, colours_of, ListInto};
ghost use Rattle.names.specs.Told.{told_colours, told_list, told_found};
ghost use Rattle.names.specs.inner.Walks.{first_named};

use crate::fault::{Fault, Refusal};
use crate::name::{front, same_name, tail};
use crate::reader::Reader;

/// A list has no more colours than this.
pub const MOST_COLOURS: usize = 64;

/// Where each name of a list starts in the input and how long it is; 0 past the count.
#[derive(Clone, Copy)]
pub struct Colours {
    pub count: usize,
    pub starts: [u16; MOST_COLOURS],
    pub lens: [u8; MOST_COLOURS],
}

/// A list that was read, with the place after it.
#[derive(Clone, Copy)]
pub struct ColourList {
    pub colours: Colours,
    pub next: usize,
}

/// How many names a list has whose places went into lent arrays, with the place after it.
#[derive(Clone, Copy)]
pub struct Listed {
    pub count: usize,
    pub next: usize,
}

/// A list with no name.
pub fn no_colours() -> Colours
    ensures { result ≡ no_colours }
{
    Colours {
        count: 0,
        starts: [0; MOST_COLOURS],
        lens: [0; MOST_COLOURS],
    }
}

// Whether the name of so many bytes at a place of s is this one.
fn is_named(s: &[u8], start: u16, len: u8, name: &[u8]) -> bool
    ensures { result ≡ same_name (take len (drop start s.now)) name.now }
{
    same_name(front(tail(s, usize::from(start)), usize::from(len)), name)
}

// The first of the names at some places, of some lengths, that is this one.
#[tactic(auto, unfolding(crate::specs::inner::Walks::first_named))]
fn first_named(s: &[u8], starts: &[u16], lens: &[u8], name: &[u8]) -> Option<usize>
    ensures { result ≡ first_named s.now name.now starts.now lens.now }
{
    starts
        .iter()
        .zip(lens)
        .position(|(start, len)| is_named(s, *start, *len, name))
}

/// The number of the colour with this name in a list over s. The list is lent in its parts, as it stands while it is read.
#[tactic(auto, unfolding(crate::specs::Colours::find_name))]
pub fn find_name(
    s: &[u8],
    count: usize,
    starts: &[u16; MOST_COLOURS],
    lens: &[u8; MOST_COLOURS],
    name: &[u8],
) -> Option<usize>
    ensures found { told_found count result ≡ find_name s.now (list_of count starts.now lens.now) name.now }
    ensures inside { IfSome result (λ j. j < count) }
{
    first_named(s, starts.get(..count)?, lens.get(..count)?, name)
}

// The places of the names of the list that the input begins with, into arrays that hold 0.
#[tactic(auto, unfolding(crate::specs::Colours::colours_of))]
fn read_names(
    s: &[u8],
    starts: &mut [u16; MOST_COLOURS],
    lens: &mut [u8; MOST_COLOURS],
) -> Result<Listed, Fault>
    requires starts { starts.old ≡ no_colours.starts }
    requires lens { lens.old ≡ no_colours.lens }
    ensures ok { IfOk result (λ _. ListInto (colours_of s.now) (told_list result) starts.new lens.new) }
    ensures err { IfErr result (λ f. colours_of s.now ≡ refused_colours (told_fault f)) }
{
    let mut reader = Reader::new(s);
    let count = reader.within(1, MOST_COLOURS)?;
    for i in 0..count {
        let span = reader.colour()?;
        let name = front(tail(s, span.start), span.len);
        if find_name(s, i, starts, lens, name).is_some() {
            return Err(Refusal::TwiceInList.at(span.start));
        }
        starts[i] = span.start as u16;
        lens[i] = span.len as u8;
    }
    Ok(Listed {
        count,
        next: reader.at,
    })
}

/// The colour list that the input begins with, read into lent arrays: whatever they held, they end with the places of the list and 0 past its
/// count. A refused list leaves 0 in all of both arrays.
pub fn read_list(
    s: &[u8],
    starts: &mut [u16; MOST_COLOURS],
    lens: &mut [u8; MOST_COLOURS],
) -> Result<Listed, Fault>
    ensures { ListInto (colours_of s.now) (told_list result) starts.new lens.new }
{
    *starts = [0; MOST_COLOURS];
    *lens = [0; MOST_COLOURS];
    let read = read_names(s, starts, lens);
    if read.is_err() {
        *starts = [0; MOST_COLOURS];
        *lens = [0; MOST_COLOURS];
    }
    read
}

/// The same list as a value.
#[tactic(auto, using(crate::proofs::Refusing::refused_list))]
pub fn read_colours(s: &[u8]) -> Result<ColourList, Fault>
    ensures { told_colours result ≡ colours_of s.now }
{
    let mut colours = no_colours();
    let Listed { count, next } = read_list(s, &mut colours.starts, &mut colours.lens)?;
    colours.count = count;
    Ok(ColourList { colours, next })
}

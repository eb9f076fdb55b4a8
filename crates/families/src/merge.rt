// The colours of two lent books in one list: those of the first, then those of the second that the first lacks by name, in their order.
use crate::lent::LentBook;
use names::colours::{Colours, MOST_COLOURS};
use names::{colours, name};

// The colours that follow those of the first book, as parts of the second, and the number of each of the second's colours in the whole list.
#[derive(Clone, Copy)]
pub(crate) struct Merged {
    pub(crate) more: Colours,
    pub(crate) numbers: [u8; MOST_COLOURS],
}

impl<'a> LentBook<'a> {
    ghost use Rattle.families.specs.inner.Merges.{Merges};

    pub(crate) fn merged(&self, second: &LentBook<'_>) -> Merged
        ensures { Merges self.now.bytes.now self.now.family.now.colours second.now.bytes.now second.now.family.now.colours result }
    {
        let (f, g) = (&self.family.colours, &second.family.colours);
        let mut more = colours::no_colours();
        let mut numbers = [0u8; MOST_COLOURS];
        let places = g.starts[..g.count].iter().zip(&g.lens[..g.count]);
        for (i, (start, len)) in places.enumerate() {
            let name = name::front(name::tail(second.bytes, *start as usize), *len as usize);
            match colours::find_name(self.bytes, f.count, &f.starts, &f.lens, name) {
                Some(found) => numbers[i] = found as u8,
                None => {
                    numbers[i] = (f.count + more.count) as u8;
                    more.starts[more.count] = *start;
                    more.lens[more.count] = *len;
                    more.count += 1;
                }
            }
        }
        Merged { more, numbers }
    }
}

// The counts that the numbers of a rule stand below.
ghost use Rattle.std.specs.Prelude.{◌≤◌};
ghost use Rattle.names.specs.Spelling.{most_colours};
ghost use Rattle.books.specs.Keeps.{most_motifs};

// How many motifs and colours a book has.
#[derive(Clone, Copy)]
pub(crate) struct Counts {
    pub(crate) motifs: usize,
    pub(crate) colours: usize,
    ghost motifs_few: { motifs ≤ most_motifs },
    ghost colours_few: { colours ≤ most_colours },
}

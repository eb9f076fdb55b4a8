// The first cell whose colour no rule names: no motif derives it, so that its entry in the table is 0. The cells stand first in the table, row by row.
ghost use Rattle.std.specs.Prelude.{◌≡◌, ◌==◌, position};

// The number of the first entry that is 0.
pub(crate) fn first_bare(cells: &[u32]) -> Option<usize>
    ensures { result ≡ position (λ entry. entry == 0) cells.now }
{
    cells.iter().position(|entry| *entry == 0)
}

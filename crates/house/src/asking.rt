// A book asked for a sheet.
use crate::kinds::Case;
use crate::{lent, printing};
use std::io;

// As many numbers as a tree of the largest sheet has.
const MOST: usize = 2304;

// The answer, and how much of the work and tree slices was written. The line says how much of the tree slice is lent.
fn asked(rt: &impl Print, case: Case<'_>, work: &mut [u32], tree: &mut [u16]) -> io::Result<()> {
    printing::answer(
        rt,
        pieces::derive::dv_derive(case.press, case.first, case.second, work, tree),
    )?;
    printing::written(rt, work)?;
    println!(rt; " {}", lent::written(tree, u16::MAX))
}

pub(crate) fn derive(rt: &impl Print, case: Case<'_>, work: &mut [u32]) -> io::Result<()> {
    let mut tree = [u16::MAX; MOST];
    let room = lent::room(case.line.number(5), MOST);
    asked(rt, case, work, &mut tree[..room])
}

// The same, and then the table and the tree.
pub(crate) fn table(rt: &impl Print, case: Case<'_>, work: &mut [u32]) -> io::Result<()> {
    let mut tree = [u16::MAX; MOST];
    let tree = &mut tree[..lent::room(case.line.number(5), MOST)];
    asked(rt, case, work, tree)?;
    print!(rt; "its table:")?;
    printing::numbers(rt, work)?;
    print!(rt; "its tree:")?;
    printing::numbers(rt, tree)
}

// The answer, and how many trials the table took.
pub(crate) fn trials(rt: &impl Print, case: Case<'_>, work: &mut [u32]) -> io::Result<()> {
    let mut tree = [u16::MAX; MOST];
    let tree = &mut tree[..lent::room(case.line.number(5), MOST)];
    let packed = pieces::derive::dv_derive(case.press, case.first, case.second, work, tree);
    printing::answer_and_count(rt, packed)?;
    println!(rt)
}

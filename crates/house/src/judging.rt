// A tree held to a book and a sheet.
use crate::kinds::Case;
use crate::printing;
use crate::spelling::{self, Kept};
use arrayvec::ArrayVec;
use books::answer;
use std::io;
use trees::calls;
use trees::node::{MOST_NODES, Node};

// The answer about the tree that the line spells, two bytes for each node: its rule and its cut.
pub(crate) fn judge(rt: &impl Print, case: Case<'_>, kept: &Kept) -> io::Result<()> {
    let mut bytes = ArrayVec::<u8, 2304>::new();
    spelling::spell(case.line.part(4), kept, &mut bytes);
    let mut nodes = [Node { rule: 0, cut: 0 }; MOST_NODES];
    for (node, pair) in nodes.iter_mut().zip(bytes.chunks_exact(2)) {
        if let [rule, cut] = pair {
            *node = Node {
                rule: u16::from(*rule),
                cut: u16::from(*cut),
            };
        }
    }
    rt.write_all(case.line.part(1))?;
    let count = bytes.len() / 2;
    let told = calls::check_copied(case.press, case.first, case.second, nodes, count);
    printing::answer(rt, answer::pack(told, 0))?;
    println!(rt)
}

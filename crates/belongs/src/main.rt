// Asks whether the sheet in sheet.bin belongs to the family of the book in book.bin, both in the working directory, and prints the answer:
// number, blamed input and place on one line, then on 0 one line for each node of the derivation, rule and cut.
#![tactic(auto)]

ghost use Rattle.std.specs.Prelude.{◌≡◌, ◌*◌, ◌≤◌, length, IfOk};
ghost use Rattle.belongs.specs.Nodes.{nodes_of};

use books::answer::Answer;
use books::sheet::sheet_size;
use std::rt::Files;
use std::{fs, io};

// No book or sheet that is accepted is longer, and what lies beyond cannot change the answer (proofs/Buffers).
const ROOM: usize = 8192;

// A file's bytes, as far as there is room; one that cannot be opened counts as empty.
fn load<'a>(rt: &impl Files, path: &str, room: &'a mut [u8; ROOM]) -> io::Result<&'a [u8]>
    ensures { IfOk result (λ bytes. length bytes.now ≤ length room.old) }
{
    match fs::open(rt, path) {
        Ok(mut file) => {
            let length = input::fill(&mut file, room)?;
            Ok(&room[..length])
        }
        Err(_) => Ok(&[]),
    }
}

fn print_answer(rt: &impl Print, answer: Answer) -> io::Result<()> {
    let Answer {
        number,
        blamed,
        place,
    } = answer;
    println!(rt; "{number} {blamed} {place}")
}

// How many nodes the derivation of a sheet has: one for each cell, and one for each join of two parts.
fn nodes(sheet: &[u8]) -> usize
    ensures { result ≡ nodes_of sheet.now }
{
    let size = sheet_size(0, sheet);
    let cells = size.rows * size.cols;
    (2 * cells).saturating_sub(1)
}

// So many nodes of a tree, two numbers each.
fn print_nodes(rt: &impl Print, tree: &[u16], nodes: usize) -> io::Result<()>
    requires { 2 * nodes ≤ length tree.now }
{
    for node in tree[..2 * nodes].chunks_exact(2) {
        if let [rule, cut] = node {
            println!(rt; "{rule} {cut}")?;
        }
    }
    Ok(())
}

fn main(rt: HostRuntime) -> io::Result<()> {
    let mut book = [0; ROOM];
    let book = load(&rt, "book.bin", &mut book)?;
    let mut sheet = [0; ROOM];
    let sheet = load(&rt, "sheet.bin", &mut sheet)?;
    let mut work = [0; 6084];
    let mut tree = [0; 574];
    let answer = pieces::derive::derive(0, book, sheet, &mut work, &mut tree).answer;
    print_answer(&rt, answer)?;
    if answer.number == 0 {
        print_nodes(&rt, &tree, nodes(sheet))?;
    }
    Ok(())
}

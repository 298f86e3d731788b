// A pipe of a unit of 10 ticks and a farm of units of 60, and its certificate for 8 processors.

use crate::making;
use p3l_base::{List, NoMemory};
use p3l_cert::CertRefusal;
use p3l_cost::Costs;
use p3l_skel::{ModuleKind, Tree};
use p3l_sketch::{ModuleRow, NodeForm, tree_named};
use std::alloc::Global;
use std::process::Abort;
use std::test::Fail;

/// The lines of its certificate.
pub const LINES: [&[u8]; 24] = [
    b"p3l-cert 1\n",
    b"processors 8\n",
    b"counts 5\n",
    b"service 12\n",
    b"used 8\n",
    b"row 0 11 8 9\n",
    b"row 0 12 8 8\n",
    b"row 1 11 8 1\n",
    b"row 1 12 8 1\n",
    b"row 2 11 8 8\n",
    b"row 2 12 8 7\n",
    b"row 3 11 6 7\n",
    b"row 3 12 6 7\n",
    b"row 3 22 3 4\n",
    b"row 3 24 3 4\n",
    b"row 3 33 2 3\n",
    b"row 3 36 2 3\n",
    b"row 3 44 1 2\n",
    b"row 3 48 1 2\n",
    b"row 3 55 1 2\n",
    b"row 3 60 1 1\n",
    b"row 3 66 1 1\n",
    b"row 3 72 1 1\n",
    b"end\n",
];

// A line of the text, counted from 0.
fn line(number: usize) -> &'static [u8] {
    match LINES.get(number) {
        Some(line) => *line,
        None => b"",
    }
}

/// The text of the certificate, with other lines in the place of two, counted from 0.
pub fn text_with(
    alloc: Global,
    first: (usize, &[u8]),
    second: (usize, &[u8]),
) -> Result<Vec<u8>, NoMemory> {
    let mut text = Vec::new(alloc);
    for number in 0..LINES.len() {
        if number == first.0 {
            text.extend_from_slice(first.1)?;
        } else if number == second.0 {
            text.extend_from_slice(second.1)?;
        } else {
            text.extend_from_slice(line(number))?;
        }
    }
    Ok(text)
}

/// The text of the certificate.
pub fn text(alloc: Global) -> Result<Vec<u8>, NoMemory> {
    let mut text = Vec::new(alloc);
    for number in 0..LINES.len() {
        text.extend_from_slice(line(number))?;
    }
    Ok(text)
}

const NODES: [ModuleRow; 4] = [
    (NodeForm::Pipe, 3, 1, 1, &[1, 2]),
    (NodeForm::Seq, 0, 1, 1, &[]),
    (NodeForm::Farm(None), 2, 1, 1, &[3]),
    (NodeForm::Seq, 1, 1, 1, &[]),
];

const MODULES: [(&str, ModuleKind); 4] = [
    ("f", ModuleKind::Seq),
    ("g", ModuleKind::Seq),
    ("w", ModuleKind::Farm),
    ("main", ModuleKind::Pipe),
];

/// The tree of the pipe.
pub fn tree(alloc: Global) -> Result<Tree, NoMemory> {
    tree_named(alloc, &NODES, &MODULES)
}

/// Its costs: nothing for tokens, 10 and 60 ticks for the units.
pub fn costs(alloc: Global) -> Result<Costs, NoMemory> {
    Ok(Costs {
        setup: 0,
        word: 0,
        ticks: List::from_vec(Vec::from_slice(alloc, &[10, 60, 0, 0])?),
        turns: List::from_vec(Vec::from_slice(alloc, &[1, 1, 1, 1])?),
    })
}

/// Why a text is no certificate of the pipe that holds, if it isn't one.
pub fn refusal(
    rt: &impl Abort,
    alloc: Global,
    text: &[u8],
) -> Result<Option<CertRefusal>, NoMemory> {
    let tree = tree(alloc)?;
    let costs = costs(alloc)?;
    Ok(making::refusal(rt, alloc, &tree, &costs, text))
}

/// The text of the certificate that is made for this number of processors.
pub fn made(rt: &impl Abort, alloc: Global, processors: u32) -> Result<List<u8>, Fail> {
    let tree = tree(alloc)?;
    let costs = costs(alloc)?;
    making::made(rt, alloc, &tree, &costs, processors)
}

// Files of costs for a small tree, each with what is read of it.

use p3l_cost::{CostRefusal, Costs, read_costs};
use p3l_skel::{ModuleKind, lawful_tree};
use p3l_sketch::{ModuleRow, NodeForm, tree_named};
use std::alloc::{AllocError, Global};
use std::process::Abort;
use std::test::Fail;

// A pipe of a farm and of a loop of 10 turns.
const NODES: [ModuleRow; 6] = [
    (NodeForm::Pipe, 6, 1, 1, &[1, 3]),
    (NodeForm::Farm(None), 5, 1, 1, &[2]),
    (NodeForm::Seq, 0, 1, 1, &[]),
    (NodeForm::Loop(10, 4), 3, 1, 1, &[4, 5]),
    (NodeForm::Seq, 0, 1, 1, &[]),
    (NodeForm::Seq, 1, 1, 1, &[]),
];

// The `seq` modules are in another order than that of their names, and `idle` and `rest` are
// modules of no node.
const MODULES: [(&str, ModuleKind); 7] = [
    ("twice", ModuleKind::Seq),
    ("add", ModuleKind::Seq),
    ("idle", ModuleKind::Seq),
    ("spin", ModuleKind::Loop),
    ("rest", ModuleKind::Loop),
    ("many", ModuleKind::Farm),
    ("main", ModuleKind::Pipe),
];

fn push_numbers(alloc: Global, text: &mut String, numbers: &[u32]) -> Result<(), AllocError> {
    for number in numbers {
        let word = format!(in alloc; " {number}")?;
        text.push_str(word.as_str())?;
    }
    Ok(())
}

// Costs as the tables write them: the setup and the word, then the ticks, then the turns.
fn written(alloc: Global, costs: &Costs) -> Result<String, AllocError> {
    let setup = costs.setup;
    let word = costs.word;
    let mut text = format!(in alloc; "{setup} {word} /")?;
    push_numbers(alloc, &mut text, costs.ticks.as_slice())?;
    text.push_str(" /")?;
    push_numbers(alloc, &mut text, costs.turns.as_slice())?;
    Ok(text)
}

fn refused(alloc: Global, refusal: &CostRefusal) -> Result<String, AllocError> {
    let (number, key) = match refusal {
        CostRefusal::NotToml => ("50", ""),
        CostRefusal::BadKey(key) => ("51 ", key.as_str()),
        CostRefusal::BadValue(key) => ("52 ", key.as_str()),
        CostRefusal::Missing(name) => ("53 ", name.as_str()),
        CostRefusal::NoMemory => ("no memory", ""),
    };
    format!(in alloc; "{number}{key}")
}

/// Returns what is read of a text, as the tables write it.
pub fn answer(rt: &impl Abort, alloc: Global, text: &[u8]) -> Result<String, Fail> {
    let tree = tree_named(alloc, &NODES, &MODULES)?;
    assert!(rt; lawful_tree(&tree));
    let answer = match read_costs(alloc, text, &tree) {
        Ok(costs) => written(alloc, &costs)?,
        Err(refusal) => refused(alloc, &refusal)?,
    };
    Ok(answer)
}

// The text of a line of a table, in which a semicolon is a line feed.
fn text_of(alloc: Global, line: &str) -> Result<String, AllocError> {
    let mut text = String::new(alloc);
    for (number, part) in line.split(';').enumerate() {
        if number > 0 {
            text.push('\n')?;
        }
        text.push_str(part)?;
    }
    Ok(text)
}

/// Each line of a table has an answer, and the text that it is the answer to.
pub fn check_files(rt: &impl Abort, alloc: Global, table: &str) -> Result<(), Fail> {
    for line in table.lines() {
        let (expected, text) = line.split_once(" | ").ok_or("no answer")?;
        let text = text_of(alloc, text)?;
        let answer = answer(rt, alloc, text.as_bytes())?;
        assert!(rt; answer.as_str() == expected, "{answer} for {line}");
    }
    Ok(())
}

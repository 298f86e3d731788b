// Expected nets.

use p3l_base::NoMemory;
use p3l_firing::{Net, Proc};
use p3l_link::{is_linked, link};
use p3l_model::{is_outside, procs};
use p3l_skel::{Counts, Tree, lawful_counts, lawful_tree};
use p3l_sketch::{Row, counts_of, tree_of};
use std::alloc::{AllocError, Global};
use std::process::Abort;
use std::test::Fail;

/// The nodes of a tree, the numbers of its workers, how many tokens a channel holds, and its net as a
/// text: a line for each process, with what it does, its node, its segment, and the channels that it
/// reads and writes; and a line for all channels, with capacity and credits.
pub type Expected = (&'static [Row], &'static [u32], u32, &'static str);

fn line_of(alloc: Global, proc: &Proc) -> Result<String, AllocError> {
    let ins = proc.ins.as_slice();
    let outs = proc.outs.as_slice();
    format!(in alloc;
        "{:?} {} {} {:?} {:?}\n",
        proc.kind, proc.node, proc.arg, ins, outs
    )
}

fn add_processes(alloc: Global, text: &mut String, net: &Net) -> Result<(), AllocError> {
    for proc in net.procs.as_slice() {
        text.push_str(line_of(alloc, proc)?.as_str())?;
    }
    Ok(())
}

fn add_channels(alloc: Global, text: &mut String, net: &Net) -> Result<(), AllocError> {
    text.push_str("channels")?;
    for chan in net.chans.as_slice() {
        text.push_str(format!(in alloc; " {}+{}", chan.cap, chan.credits)?.as_str())?;
    }
    Ok(())
}

fn text_of(alloc: Global, net: &Net) -> Result<String, AllocError> {
    let mut text = String::new(alloc);
    add_processes(alloc, &mut text, net)?;
    add_channels(alloc, &mut text, net)?;
    Ok(text)
}

// The net of a tree. It is known again, and with this capacity alone.
fn net_of(
    rt: &impl Abort,
    alloc: Global,
    tree: &Tree,
    counts: &Counts,
    cap: u32,
) -> Result<Net, NoMemory> {
    assert!(rt; lawful_tree(tree));
    assert!(rt; lawful_counts(tree, counts));
    assert!(rt; is_outside(tree, 0));
    assert!(rt; procs(tree, counts, 0) <= 4096);
    assert!(rt; 1 <= cap && cap < 1024);
    let net = link(alloc, tree, counts, cap)?;
    assert!(rt; is_linked(alloc, &net, tree, counts, cap)?);
    assert!(rt; !is_linked(alloc, &net, tree, counts, cap + 1)?);
    Ok(net)
}

// The net of these rows as a text.
fn linked_text(
    rt: &impl Abort,
    alloc: Global,
    rows: &[Row],
    counts: &[u32],
    cap: u32,
) -> Result<String, Fail> {
    let tree = tree_of(alloc, rows)?;
    let counts = counts_of(alloc, counts)?;
    let net = net_of(rt, alloc, &tree, &counts, cap)?;
    Ok(text_of(alloc, &net)?)
}

/// Each net of a table must be as it is expected.
pub fn compare(rt: &impl Abort, alloc: Global, table: &[Expected]) -> Result<(), Fail> {
    for (rows, counts, cap, expected) in table {
        let text = linked_text(rt, alloc, rows, counts, *cap)?;
        assert_eq!(rt; text.as_str(), *expected);
    }
    Ok(())
}

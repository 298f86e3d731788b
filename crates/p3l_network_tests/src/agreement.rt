// Lines against the machine of one body: 0 is the source, 1 the sink, and 2 runs the body.

ghost use Rattle.std.specs.Prelude.{◌≡◌, None, IfOk};
ghost use Rattle.p3l_base.specs.Memory.{IfGiven};
ghost use Rattle.p3l_firing.specs.Typed.{IsTyped};

use p3l_base::{List, NoMemory, Words};
use p3l_firing::Net;
use p3l_link::link;
use p3l_model::{is_outside, procs};
use p3l_net::{Machine, ProcKind};
use p3l_skel::{Counts, Tree, lawful_counts, lawful_tree};
use p3l_sketch::tree_of_one;
use p3l_trace::{TraceLine, agrees};
use std::alloc::Global;
use std::process::Abort;
use std::test::Fail;

/// The net of a tree without workers.
fn net_of(rt: &impl Abort, alloc: Global, tree: &Tree) -> Result<Net, NoMemory>
    ensures { IfGiven result (λ net. IsTyped tree.now net) }
{
    let counts = Counts {
        list: List::new(alloc),
    };
    assert!(rt; lawful_tree(tree));
    assert!(rt; lawful_counts(tree, &counts));
    assert!(rt; is_outside(tree, 0));
    assert!(rt; procs(tree, &counts, 0) <= 4096);
    link(alloc, tree, &counts, 4)
}

/// The machine of such a net, before the first firing.
fn machine_of<'t>(rt: &impl Abort, alloc: Global, tree: &'t Tree) -> Result<Machine<'t>, NoMemory>
    ensures tree { IfGiven result (λ machine. machine.tree ≡ tree.now) }
    ensures empty { IfOk result (λ machine. machine.inbox ≡ None) }
{
    let net = net_of(rt, alloc, tree)?;
    Machine::start(alloc, tree, net)
}

/// Compares which of these lines agree with a machine.
fn compare(rt: &impl Abort, machine: &Machine<'_>, wanted: &[(u32, Option<ProcKind>, bool)]) {
    for (pick, kind, agreed) in wanted {
        let line = TraceLine {
            pick: *pick,
            kind: *kind,
        };
        assert_eq!(rt; agrees(&line, machine, machine.net()), *agreed);
    }
}

// Without an item, nothing can fire.
const EMPTY: [(u32, Option<ProcKind>, bool); 7] = [
    (0, None, true),
    (1, None, true),
    (2, None, true),
    (3, None, false),
    (4_294_967_295, None, false),
    (0, Some(ProcKind::Source), false),
    (2, Some(ProcKind::Run), false),
];

// With an item, the source alone can fire.
const OFFERED: [(u32, Option<ProcKind>, bool); 8] = [
    (0, Some(ProcKind::Source), true),
    (0, None, false),
    (0, Some(ProcKind::Sink), false),
    (0, Some(ProcKind::Run), false),
    (1, None, true),
    (1, Some(ProcKind::Sink), false),
    (2, None, true),
    (3, Some(ProcKind::Source), false),
];

/// Offers an item of one word.
fn offer(
    rt: &impl Abort,
    alloc: Global,
    machine: &mut Machine<'_>,
    tree: &Tree,
) -> Result<(), NoMemory>
    requires tree { machine.old.tree ≡ tree.now }
    requires empty { machine.old.inbox ≡ None }
{
    let words = Words::from_vec(Vec::from_slice(alloc, &[7])?);
    let root = tree.node(0);
    assert!(rt; root.is_some());
    assert!(rt; words.len() == root.unwrap().ins as usize);
    machine.offer(alloc, words)
}

/// Compares the lines with a machine that has no item, and then with one that has.
fn compare_all(
    rt: &impl Abort,
    alloc: Global,
    machine: &mut Machine<'_>,
    tree: &Tree,
) -> Result<(), NoMemory>
    requires tree { machine.old.tree ≡ tree.now }
    requires empty { machine.old.inbox ≡ None }
{
    compare(rt, machine, &EMPTY);
    offer(rt, alloc, machine, tree)?;
    compare(rt, machine, &OFFERED);
    Ok(())
}

#[test]
fn lines_agree_by_what_can_fire_and_its_kind(rt: HostRuntime) -> Result<(), Fail> {
    let tree = tree_of_one(rt.alloc())?;
    let mut machine = machine_of(&rt, rt.alloc(), &tree)?;
    compare_all(&rt, rt.alloc(), &mut machine, &tree)?;
    Ok(())
}

// Machines fired process by process, by tables worked out from the rows of the kinds.

ghost use Rattle.std.specs.Prelude.{◌≡◌, ◌<◌, None, length, IfOk};
ghost use Rattle.p3l_base.specs.Memory.{IfGiven};
ghost use Rattle.p3l_firing.specs.Typed.{IsTyped};
ghost use Rattle.p3l_link.specs.Net.{linked_net};

use crate::restored::renew;
use p3l_base::{List, NoMemory, Outcome, Words};
use p3l_firing::Net;
use p3l_link::link;
use p3l_model::{is_outside, procs};
use p3l_net::Machine;
use p3l_skel::{Counts, Tree, Units, lawful_counts, lawful_tree};
use std::alloc::Global;
use std::process::Abort;

/// The net of a tree with these numbers of workers, and with room for one token in each channel.
pub fn net_of(rt: &impl Abort, alloc: Global, tree: &Tree, counts: &Counts) -> Result<Net, NoMemory>
    ensures net { IfGiven result (λ net. net ≡ linked_net tree.now counts.now.list 1) }
    ensures typed { IfOk result (λ net. IsTyped tree.now net) }
{
    assert!(rt; lawful_tree(tree));
    assert!(rt; lawful_counts(tree, counts));
    assert!(rt; is_outside(tree, 0));
    assert!(rt; procs(tree, counts, 0) <= 4096);
    link(alloc, tree, counts, 1)
}

/// A network: its tree, what its units do, and the numbers of its workers. It may be restored before
/// each pick from what is saved of it.
#[derive(Drop)]
pub struct Network<'n, U: Units> {
    pub tree: &'n Tree,
    pub units: &'n U,
    pub counts: &'n Counts,
    pub is_restored: bool,
}

/// The machine of a tree with these numbers of workers, as it starts.
fn machine_of<'t>(
    rt: &impl Abort,
    alloc: Global,
    tree: &'t Tree,
    counts: &Counts,
) -> Result<Machine<'t>, NoMemory>
    ensures tree { IfGiven result (λ machine. machine.tree ≡ tree.now) }
    ensures net { IfOk result (λ machine. machine.net ≡ linked_net tree.now counts.now.list 1) }
{
    let net = net_of(rt, alloc, tree, counts)?;
    Machine::start(alloc, tree, net)
}

/// Compares whether a process can fire: by itself, from it on, and by its place among all that can,
/// of which `before` are before it. Gives the number of those before the next one.
fn compare_process(
    rt: &impl Abort,
    machine: &Machine<'_>,
    process: u32,
    before: u32,
    can: bool,
) -> u32
    requires { process < length machine.now.net.procs }
{
    assert_eq!(rt; machine.can_step(process), can);
    assert_eq!(rt; machine.next_ready(process) == Some(process), can);
    if !can {
        return before;
    }
    assert!(rt; before < machine.ready());
    assert_eq!(rt; machine.ready_at(before), process);
    before + 1
}

/// Compares which processes can fire with a set of bits.
fn compare_ready(rt: &impl Abort, machine: &Machine<'_>, ready: u32) {
    assert!(rt; machine.size() < 32);
    let mut before = 0;
    for process in 0..machine.size() {
        let can = ready >> process & 1 == 1;
        before = compare_process(rt, machine, process, before, can);
    }
    assert_eq!(rt; machine.ready(), before);
}

/// Fires a process that can fire, and compares what can fire after it; keeps what was handed out.
fn fire<U: Units>(
    rt: &impl Abort,
    alloc: Global,
    network: &Network<'_, U>,
    machine: &mut Machine<'_>,
    step: (u32, u32),
    outcomes: &mut List<Outcome>,
) -> Result<(), NoMemory>
    requires machine { machine.old.tree ≡ network.now.tree.now }
    requires units { U.tree network.now.units.now ≡ network.now.tree.now }
    ensures tree { machine.new.tree ≡ machine.old.tree }
    ensures net { machine.new.net ≡ machine.old.net }
{
    let (process, ready) = step;
    assert!(rt; process < machine.size());
    assert!(rt; machine.can_step(process));
    assert!(rt; machine.fired() < 100);
    let fired = machine.fire(alloc, network.tree, network.units, process)?;
    compare_ready(rt, machine, ready);
    if let Some(outcome) = fired.emitted {
        outcomes.push(outcome)?;
    }
    Ok(())
}

/// Offers an item of the root's in words.
fn offer(
    rt: &impl Abort,
    alloc: Global,
    machine: &mut Machine<'_>,
    tree: &Tree,
    item: &[i64],
) -> Result<(), NoMemory>
    requires machine { machine.old.tree ≡ tree.now }
    requires empty { machine.old.inbox ≡ None }
    ensures tree { machine.new.tree ≡ machine.old.tree }
    ensures net { machine.new.net ≡ machine.old.net }
{
    let words = Words::from_vec(item.to_vec(alloc)?);
    let root = tree.node(0);
    assert!(rt; root.is_some());
    let ins = root.unwrap().ins;
    assert!(rt; words.len() == ins as usize);
    machine.offer(alloc, words)
}

/// Offers the first of these items, if the inbox is empty and there is one; gives those that are
/// left.
fn fill<'i, 'w>(
    rt: &impl Abort,
    alloc: Global,
    machine: &mut Machine<'_>,
    tree: &Tree,
    items: &'i [&'w [i64]],
) -> Result<&'i [&'w [i64]], NoMemory>
    requires { machine.old.tree ≡ tree.now }
    ensures tree { machine.new.tree ≡ machine.old.tree }
    ensures net { machine.new.net ≡ machine.old.net }
{
    if !machine.wants_item() {
        return Ok(items);
    }
    let Some((item, rest)) = items.split_first() else {
        return Ok(items);
    };
    offer(rt, alloc, machine, tree, item)?;
    Ok(rest)
}

/// Fires processes one after another, and offers an item before each where the inbox is empty; keeps
/// what was handed out. Only the source can fire at first.
fn pass<'t, U: Units>(
    rt: &impl Abort,
    alloc: Global,
    network: &Network<'t, U>,
    machine: &mut Machine<'t>,
    items: &[&[i64]],
    steps: &[(u32, u32)],
    outcomes: &mut List<Outcome>,
) -> Result<(), NoMemory>
    requires tree { machine.old.tree ≡ network.now.tree.now }
    requires net { machine.old.net ≡ linked_net network.now.tree.now network.now.counts.now.list 1 }
    requires units { U.tree network.now.units.now ≡ network.now.tree.now }
{
    let mut left = fill(rt, alloc, machine, network.tree, items)?;
    compare_ready(rt, machine, 0b1);
    for step in steps {
        left = fill(rt, alloc, machine, network.tree, left)?;
        if network.is_restored {
            renew(rt, alloc, machine, network.tree, network.counts)?;
        }
        fire(rt, alloc, network, machine, *step, outcomes)?;
    }
    Ok(())
}

/// Keeps what a network hands out of items under these picks. After each of them is the set of the
/// processes that can fire after it, as bits. Each item is offered as soon as the inbox is empty.
pub fn run<U: Units>(
    rt: &impl Abort,
    alloc: Global,
    network: &Network<'_, U>,
    items: &[&[i64]],
    steps: &[(u32, u32)],
    outcomes: &mut List<Outcome>,
) -> Result<(), NoMemory>
    requires { U.tree network.now.units.now ≡ network.now.tree.now }
{
    let mut machine = machine_of(rt, alloc, network.tree, network.counts)?;
    pass(rt, alloc, network, &mut machine, items, steps, outcomes)
}

// The machine under round robin, against the plain program of the meaning.

ghost use Rattle.std.specs.Prelude.{◌≡◌, ◌∷◌, []};
ghost use Rattle.p3l_base.specs.Memory.{IfGiven};
ghost use Rattle.p3l_sketch.specs.OneNode.{one_node};

use p3l_base::{List, NoMemory, Outcome, Words};
use p3l_net::{Machine, laws, unit_net};
use p3l_reference::item_outcome;
use p3l_skel::{Tree, Units, lawful_tree};
use p3l_sketch::{Echo, Refusing, is_same, tree_of_one};
use std::alloc::Global;
use std::process::Abort;
use std::test::Fail;

/// The words of an item of one word.
fn item_of(alloc: Global, word: i64) -> Result<Words, NoMemory>
    ensures { IfGiven result (λ words. words ≡ word ∷ []) }
{
    let mut words = Words::new(alloc);
    words.push(word)?;
    Ok(words)
}

/// Offers the item at `next`, if the inbox is empty and there is one; gives the place of the
/// next one.
fn fill(
    alloc: Global,
    machine: &mut Machine<'_>,
    items: &[i64],
    next: usize,
) -> Result<usize, NoMemory>
    requires { machine.old.tree ≡ one_node }
    ensures { machine.new.tree ≡ machine.old.tree }
{
    if next < items.len() && machine.wants_item() {
        machine.offer(alloc, item_of(alloc, items[next])?)?;
        return Ok(next + 1);
    }
    Ok(next)
}

/// Fires a process, and keeps the outcome that it hands out.
fn step<U: Units>(
    rt: &impl Abort,
    alloc: Global,
    machine: &mut Machine<'_>,
    tree: &Tree,
    units: &U,
    process: u32,
    outcomes: &mut List<Outcome>,
) -> Result<(), NoMemory>
    requires machine { machine.old.tree ≡ one_node }
    requires tree { tree.now ≡ one_node }
    requires units { U.tree units.now ≡ one_node }
    ensures { machine.new.tree ≡ machine.old.tree }
{
    assert!(rt; process < machine.size());
    assert!(rt; machine.can_step(process));
    assert!(rt; machine.fired() < 100);
    let fired = machine.fire(alloc, tree, units, process)?;
    if let Some(outcome) = fired.emitted {
        outcomes.push(outcome)?;
    }
    Ok(())
}

/// The machine of one body.
fn machine_of<'t>(rt: &impl Abort, alloc: Global, tree: &'t Tree) -> Result<Machine<'t>, NoMemory>
    requires { tree.now ≡ one_node }
    ensures { IfGiven result (λ machine. machine.tree ≡ one_node) }
{
    laws::the_net_of_one_unit_is_typed();
    assert!(rt; lawful_tree(tree));
    let net = unit_net(alloc, 4)?;
    Machine::start(alloc, tree, net)
}

/// Fires one process after another by turns until none can; keeps what was handed out.
fn run<U: Units>(
    rt: &impl Abort,
    alloc: Global,
    machine: &mut Machine<'_>,
    tree: &Tree,
    units: &U,
    items: &[i64],
    outcomes: &mut List<Outcome>,
) -> Result<(), NoMemory>
    requires machine { machine.old.tree ≡ one_node }
    requires tree { tree.now ≡ one_node }
    requires units { U.tree units.now ≡ one_node }
{
    let mut next = 0;
    let mut cursor = 0;
    for _pick in 0..100 {
        next = fill(alloc, machine, items, next)?;
        assert!(rt; cursor < machine.size());
        let Some(process) = machine.next_ready(cursor) else {
            return Ok(());
        };
        step(rt, alloc, machine, tree, units, process, outcomes)?;
        assert!(rt; process < 3);
        cursor = (process + 1) % 3;
    }
    Ok(())
}

/// Keeps what the network of one body emits of items under round robin.
fn emit<U: Units>(
    rt: &impl Abort,
    alloc: Global,
    tree: &Tree,
    units: &U,
    items: &[i64],
    outcomes: &mut List<Outcome>,
) -> Result<(), NoMemory>
    requires tree { tree.now ≡ one_node }
    requires units { U.tree units.now ≡ one_node }
{
    let mut machine = machine_of(rt, alloc, tree)?;
    run(rt, alloc, &mut machine, tree, units, items, outcomes)
}

/// Returns what the plain program gives for an item of one word.
fn plain<U: Units>(
    rt: &impl Abort,
    alloc: Global,
    tree: &Tree,
    units: &U,
    word: i64,
) -> Result<Outcome, NoMemory>
    requires tree { tree.now ≡ one_node }
    requires units { U.tree units.now ≡ one_node }
{
    assert!(rt; lawful_tree(tree));
    let item = item_of(alloc, word)?;
    item_outcome(alloc, tree, units, 0, &item)
}

/// Keeps what the plain program gives for items, up to and with the first trap.
fn give<U: Units>(
    rt: &impl Abort,
    alloc: Global,
    tree: &Tree,
    units: &U,
    items: &[i64],
    outcomes: &mut List<Outcome>,
) -> Result<(), NoMemory>
    requires tree { tree.now ≡ one_node }
    requires units { U.tree units.now ≡ one_node }
{
    for word in items {
        let outcome = plain(rt, alloc, tree, units, *word)?;
        let ends = matches!(outcome, Outcome::Trapped(_));
        outcomes.push(outcome)?;
        if ends {
            break;
        }
    }
    Ok(())
}

/// Returns true exactly if these are the same outcomes.
fn are_same(some: &[Outcome], others: &[Outcome]) -> bool {
    for (one, other) in some.iter().zip(others) {
        if !is_same(one, other) {
            return false;
        }
    }
    some.len() == others.len()
}

/// Compares the machine with the plain program; gives how many outcomes there are.
fn compare<U: Units>(
    rt: &impl Abort,
    alloc: Global,
    tree: &Tree,
    units: &U,
    items: &[i64],
) -> Result<usize, NoMemory>
    requires tree { tree.now ≡ one_node }
    requires units { U.tree units.now ≡ one_node }
{
    let mut emitted = List::new(alloc);
    let mut given = List::new(alloc);
    emit(rt, alloc, tree, units, items, &mut emitted)?;
    give(rt, alloc, tree, units, items, &mut given)?;
    assert!(rt; are_same(emitted.as_slice(), given.as_slice()));
    Ok(given.len())
}

#[test]
fn the_machine_emits_what_the_plain_program_gives(rt: HostRuntime) -> Result<(), Fail> {
    let items = [7, -3, 0, 5, i64::MIN, i64::MAX, 1, 2, 3, 4];
    let tree = tree_of_one(rt.alloc())?;
    let echoed = compare(&rt, rt.alloc(), &tree, &Echo, &items)?;
    let refused = compare(&rt, rt.alloc(), &tree, &Refusing, &items)?;
    assert!(rt; echoed == items.len() && refused == 1);
    Ok(())
}

// Machines of linked nets, run on items under a schedule.

ghost use Rattle.std.specs.Prelude.{◌≡◌, ◌<◌, length, IsTrue};
ghost use Rattle.p3l_base.specs.Memory.{IfGiven};
ghost use Rattle.p3l_net.specs.Machine.{can_step};
ghost use Rattle.p3l_firing.specs.Typed.{IsTyped};
ghost use Rattle.p3l_sched.specs.Picker.{HasPlace};
ghost use Rattle.p3l_skel.specs.Lawful.{IsLawfulTree};

use crate::items::Case;
use p3l_base::{List, NoMemory, Outcome};
use p3l_firing::Net;
use p3l_link::link;
use p3l_model::{is_outside, procs};
use p3l_net::{Machine, Shot};
use p3l_sched::{Picker, Schedule};
use p3l_skel::outcome::copied;
use p3l_skel::{Counts, Tree, lawful_counts};
use p3l_units::UnitTable;
use std::alloc::Global;
use std::process::Abort;

/// More picks than any run of the tests has.
const MOST_PICKS: u32 = 1_000_000;

/// The capacity of channels, and the seed by which processes are drawn: none for the turns.
pub type Setting = (u32, Option<u64>);

// The picker of a seed, or of the turns.
fn picker_of(seed: Option<u64>) -> Picker
    ensures { HasPlace 1 result }
{
    match seed {
        None => Picker::new(Schedule::RoundRobin),
        Some(seed) => Picker::new(Schedule::Seeded(seed)),
    }
}

// The net of a tree.
fn net_of(
    rt: &impl Abort,
    alloc: Global,
    tree: &Tree,
    counts: &Counts,
    cap: u32,
) -> Result<Net, NoMemory>
    requires { IsLawfulTree tree.now }
    ensures { IfGiven result (λ net. IsTyped tree.now net) }
{
    assert!(rt; lawful_counts(tree, counts));
    assert!(rt; is_outside(tree, 0));
    assert!(rt; procs(tree, counts, 0) <= 4096);
    assert!(rt; 1 <= cap && cap <= 1024);
    link(alloc, tree, counts, cap)
}

// The machine of the tree that these units serve.
fn machine_of<'t>(
    rt: &impl Abort,
    alloc: Global,
    units: &'t UnitTable<'_>,
    counts: &Counts,
    cap: u32,
) -> Result<Machine<'t>, NoMemory>
    ensures tree { IfGiven result (λ machine. machine.tree ≡ units.now.tree) }
{
    let tree = units.tree();
    let net = net_of(rt, alloc, tree, counts, cap)?;
    Machine::start(alloc, tree, net)
}

// Offers the first of these items, if the inbox is empty and there is one; gives those that are
// left.
fn fill<'c>(
    rt: &impl Abort,
    alloc: Global,
    units: &UnitTable<'_>,
    machine: &mut Machine<'_>,
    cases: &'c [Case],
) -> Result<&'c [Case], NoMemory>
    requires { machine.old.tree ≡ units.now.tree }
    ensures tree { machine.new.tree ≡ machine.old.tree }
    ensures net { machine.new.net ≡ machine.old.net }
{
    if !machine.wants_item() {
        return Ok(cases);
    }
    let Some((case, rest)) = cases.split_first() else {
        return Ok(cases);
    };
    let item = copied(alloc, &case.item)?;
    let root = units.tree().node(0);
    assert!(rt; root.is_some());
    assert!(rt; item.len() == root.unwrap().ins as usize);
    machine.offer(alloc, item)?;
    Ok(rest)
}

// The process that is picked, which can fire.
fn picked(rt: &impl Abort, machine: &Machine<'_>, picker: &mut Picker) -> u32
    requires place { HasPlace (length machine.now.net.procs) picker.old }
    ensures there { result < length machine.now.net.procs }
    ensures can { IsTrue (can_step machine.now result) }
    ensures place { HasPlace (length machine.now.net.procs) picker.new }
{
    assert!(rt; machine.ready() != 0);
    let process = picker.pick(machine);
    assert!(rt; process.is_some());
    let process = process.unwrap();
    assert!(rt; process < machine.size());
    assert!(rt; machine.can_step(process));
    process
}

// Fires the process that is picked, and keeps the outcome that it hands out.
fn step(
    rt: &impl Abort,
    alloc: Global,
    units: &UnitTable<'_>,
    machine: &mut Machine<'_>,
    picker: &mut Picker,
    outcomes: &mut List<Outcome>,
) -> Result<(), NoMemory>
    requires tree { machine.old.tree ≡ units.now.tree }
    requires place { HasPlace (length machine.old.net.procs) picker.old }
    ensures tree { machine.new.tree ≡ machine.old.tree }
    ensures place { HasPlace (length machine.new.net.procs) picker.new }
{
    let process = picked(rt, machine, picker);
    assert!(rt; machine.fired() < MOST_PICKS as u64);
    let fired = machine.fire(alloc, units.tree(), units, process)?;
    if let Some(outcome) = fired.emitted {
        outcomes.push(outcome)?;
    }
    Ok(())
}

// Fires processes until none can, and keeps the outcomes.
fn run(
    rt: &impl Abort,
    alloc: Global,
    units: &UnitTable<'_>,
    machine: &mut Machine<'_>,
    picker: &mut Picker,
    outcomes: &mut List<Outcome>,
    cases: &[Case],
) -> Result<(), NoMemory>
    requires tree { machine.old.tree ≡ units.now.tree }
    requires place { HasPlace (length machine.old.net.procs) picker.old }
{
    let mut left = cases;
    for _pick in 0..MOST_PICKS {
        left = fill(rt, alloc, units, machine, left)?;
        if machine.ready() == 0 {
            return Ok(());
        }
        step(rt, alloc, units, machine, picker, outcomes)?;
    }
    assert!(rt; false, "the run does not end");
    Ok(())
}

/// Returns what the network emits of the items until no process can fire.
pub fn emitted(
    rt: &impl Abort,
    alloc: Global,
    units: &UnitTable<'_>,
    counts: &Counts,
    setting: Setting,
    cases: &[Case],
) -> Result<List<Outcome>, NoMemory> {
    let (cap, seed) = setting;
    let mut machine = machine_of(rt, alloc, units, counts, cap)?;
    assert!(rt; machine.size() > 0);
    let mut picker = picker_of(seed);
    let mut outcomes = List::new(alloc);
    run(
        rt,
        alloc,
        units,
        &mut machine,
        &mut picker,
        &mut outcomes,
        cases,
    )?;
    Ok(outcomes)
}

/// Returns what is saved of the machine after `picks` picks by turns, which hand out no trap.
pub fn saved_after(
    rt: &impl Abort,
    alloc: Global,
    units: &UnitTable<'_>,
    counts: &Counts,
    picks: u32,
    cases: &[Case],
) -> Result<Shot, NoMemory> {
    let mut machine = machine_of(rt, alloc, units, counts, 2)?;
    assert!(rt; machine.size() > 0);
    let mut picker = picker_of(None);
    let mut outcomes = List::new(alloc);
    let mut left = cases;
    for _pick in 0..picks {
        left = fill(rt, alloc, units, &mut machine, left)?;
        step(rt, alloc, units, &mut machine, &mut picker, &mut outcomes)?;
    }
    assert!(rt; !machine.trapped());
    machine.save(alloc)
}

// A machine fed from a stream of few bytes.

ghost use Rattle.std.specs.Prelude.{◌≡◌};
ghost use Rattle.p3l_base.specs.Memory.{IfGiven};
ghost use Rattle.p3l_sketch.specs.OneNode.{one_node};

use p3l_base::{List, NoMemory};
use p3l_io::MemSource;
use p3l_net::laws::the_net_of_one_unit_is_typed;
use p3l_net::{Machine, unit_net};
use p3l_run::feed::feed;
use p3l_skel::Tree;
use p3l_sketch::tree_of_one;
use p3l_stream::{Ending, Lines};
use std::alloc::Global;
use std::test::Fail;

/// The machine of the tree of one node.
fn machine_of<'t>(alloc: Global, tree: &'t Tree) -> Result<Machine<'t>, NoMemory>
    requires { tree.now ≡ one_node }
    ensures { IfGiven result (λ machine. machine.tree ≡ one_node) }
{
    the_net_of_one_unit_is_typed();
    let net = unit_net(alloc, 4)?;
    Machine::start(alloc, tree, net)
}

/// The ending of a stream of four bytes at most, if it ended, when a machine was fed from it.
fn fed_within(
    alloc: Global,
    machine: &mut Machine<'_>,
    source: &mut MemSource,
) -> Result<Option<Ending>, NoMemory>
    requires { machine.old.tree ≡ one_node }
{
    let mut lines = Lines::new(alloc, 1, 4)?;
    feed(alloc, machine, &mut lines, source)?;
    Ok(lines.ending())
}

/// The same of the machine of the tree of one node.
fn ending_of(alloc: Global, tree: &Tree, source: &mut MemSource) -> Result<Option<Ending>, NoMemory>
    requires { tree.now ≡ one_node }
{
    let mut machine = machine_of(alloc, tree)?;
    fed_within(alloc, &mut machine, source)
}

/// No test has an input of as many bytes as may be, so here fewer may be.
#[test]
fn an_input_that_reaches_its_limit_is_too_long(rt: HostRuntime) -> Result<(), Fail> {
    let alloc = rt.alloc();
    let tree = tree_of_one(alloc)?;
    let bytes = List::from_vec(Vec::from_slice(alloc, b"\n\n\n\n\n")?);
    let mut source = MemSource::new(bytes, 2, List::new(alloc));
    let close = ending_of(alloc, &tree, &mut source)?;
    assert!(rt; close == Some(Ending::TooLong));
    Ok(())
}

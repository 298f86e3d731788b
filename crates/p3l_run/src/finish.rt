// The end of a run.

ghost use Rattle.std.specs.Prelude.{◌≡◌, ◌*◌, IsNone, IsSome};
ghost use Rattle.p3l_base.specs.Memory.{IfGiven};
ghost use Rattle.p3l_stream.specs.declared.items.Ending.{Ending};
ghost use Rattle.p3l_run.specs.Run.{MayEnd, end_of, module_name};

use crate::end::{RunEnd, RunStats};
use p3l_base::{Name, NoMemory, Trap};
use p3l_net::Machine;
use p3l_skel::Tree;
use p3l_stream::Ending;
use std::alloc::Global;

/// The name of module `number`, and an empty one where there is no such module.
pub fn name_of(alloc: Global, tree: &Tree, number: u32) -> Result<Name, NoMemory>
    ensures { IfGiven result (λ name. name ≡ module_name tree.now number) }
{
    match tree.modules.as_slice().get(number as usize) {
        Some(found) => Name::from_text(alloc, found.name.as_str()),
        None => Name::from_text(alloc, ""),
    }
}

/// The end of a run in which no process can fire: the trap that was emitted, for the item of this
/// number, or else the ending of its stream.
pub(crate) fn finish_with(
    alloc: Global,
    tree: &Tree,
    trap: Option<Trap>,
    number: u64,
    close: Option<Ending>,
) -> Result<RunEnd, NoMemory>
    requires { IsNone trap → IsSome close }
    ensures { IfGiven result (λ finish. (e : Ending) → MayEnd close e
        → finish ≡ end_of tree.now trap number e) }
{
    match trap {
        None => Ok(RunEnd::Stream(close.unwrap())),
        Some(trap) => {
            let name = name_of(alloc, tree, trap.module)?;
            Ok(RunEnd::Trapped {
                item: number,
                kind: trap.kind,
                module: name,
            })
        }
    }
}

/// The product of two numbers.
fn product(first: u64, second: u64) -> u128
    ensures { result ≡ first * second }
{
    u128::from(first) * u128::from(second)
}

/// The numbers of a run of a machine, with these idle picks and this number of firings an item at
/// most.
pub(crate) fn stats_of(machine: &Machine<'_>, firings: u64, idle: u64) -> RunStats
    ensures { result
        ≡ record {
          items = machine.now.sent;
          fired = machine.now.fired;
          idle = idle;
          bound =
              machine.now.sent * firings;
        } }
{
    let sent = machine.sent();
    RunStats {
        items: sent,
        fired: machine.fired(),
        idle,
        bound: product(sent, firings),
    }
}

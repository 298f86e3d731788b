// The depth to which the instances of modules are nested.

ghost use Rattle.std.specs.Prelude.{◌≡◌, ◌<◌, length, map};
ghost use Rattle.p3l_base.specs.Memory.{IfGiven};
ghost use Rattle.std.specs.List.{All};
ghost use Rattle.p3l_skel.specs.Tree.{nesting};
ghost use Rattle.p3l_check.specs.Refusing.{is_nested_within};
ghost use Rattle.p3l_check.specs.Levels.{CallsAreThere, is_nested_by};

use crate::callables::Callable;
use p3l_base::NoMemory;
use p3l_skel::tree::NESTING;
use std::alloc::Global;

/// True if the instances of a module are nested no deeper than one level more than the table is for.
#[tactic(auto, unfolding(crate::specs::Levels::is_nested_by))]
fn is_nested_by(level: &[bool], caller: &Callable) -> bool
    requires { All (λ c. c < length level.now) caller.now.calls }
    ensures { result ≡ is_nested_by level.now caller.now }
{
    caller
        .calls
        .as_slice()
        .iter()
        .all(|call| level[*call as usize])
}

/// The table for one level more.
#[tactic(auto, using(std::proofs::lemmas::List::map_more))]
fn next_level(alloc: Global, callables: &[Callable], level: &[bool]) -> Result<Vec<bool>, NoMemory>
    requires calls { CallsAreThere callables.now }
    requires count { length level.now ≡ length callables.now }
    ensures { IfGiven result (λ next. next.items ≡ map (is_nested_by level.now) callables.now) }
{
    let mut next = Vec::with_capacity(alloc, callables.len())?;
    for module in callables {
        next.push(is_nested_by(level, module))?;
    }
    Ok(next)
}

/// True if the instances in an instance of a module are nested no deeper than a program may be.
pub(crate) fn is_nested(alloc: Global, callables: &[Callable], root: u32) -> Result<bool, NoMemory>
    requires calls { CallsAreThere callables.now }
    requires root { root < length callables.now }
    ensures { IfGiven result (λ nested. nested ≡ is_nested_within callables.now nesting root) }
{
    let mut level = vec![in alloc; false; callables.len()]?;
    'levels: for _depth in 0..NESTING {
        level = next_level(alloc, callables, &level)?;
    }
    Ok(level[root as usize])
}

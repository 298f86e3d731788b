// Farms of modules, and calls of them.

ghost use Rattle.std.specs.Prelude.{◌≡◌, [], ◌∷◌, ◌++◌, map};
ghost use Rattle.p3l_base.specs.Memory.{IfGiven};
ghost use Rattle.p3l_ast.specs.Tree.{module_tree};
ghost use Rattle.p3l_rewrite.specs.Candidates.{plain, plain_out, longer, no_clauses, call_with, farm_with, farm_of, is_among, farm_called};

use crate::{Copied, copies};
use p3l_ast::{Arg, Call, Clauses, Inside, Kind, Module, OutArg, Port, Spot};
use p3l_base::{List, Name, NoMemory};
use std::alloc::Global;

/// The end of a farm's name, behind its module's name.
pub const FARM: &str = "_farm";

/// A name with more behind it.
pub fn longer_name(alloc: Global, name: &Name, more: &str) -> Result<Name, NoMemory>
    ensures { IfGiven result (λ longer. longer ≡ name.now ++ more.now) }
{
    let mut text = String::from_str(alloc, name.as_str())?;
    text.push_str(more)?;
    Name::from_text(alloc, text.as_str())
}

/// The same at its place.
pub fn longer(alloc: Global, at: &Spot, more: &str) -> Result<Spot, NoMemory>
    ensures { IfGiven result (λ spot. spot ≡ longer more.now at.now) }
{
    Ok(Spot {
        name: longer_name(alloc, &at.name, more)?,
        pos: at.pos,
    })
}

/// No clauses.
pub fn no_clauses() -> Clauses
    ensures { result ≡ no_clauses }
{
    Clauses {
        workers: None,
        turns: None,
        tokens: None,
        budget: None,
        rescue: None,
    }
}

/// The plain name of a port as an argument.
fn plain(alloc: Global, port: &Port) -> Result<Arg, NoMemory>
    ensures { IfGiven result (λ arg. arg ≡ plain port.now) }
{
    let at = port.at.copied(alloc)?;
    Ok(Arg {
        at,
        subs: List::new(alloc),
    })
}

fn plain_ins(alloc: Global, ports: &[Port]) -> Result<List<Arg>, NoMemory>
    ensures { IfGiven result (λ args. args ≡ map plain ports.now) }
{
    let mut args = List::new(alloc);
    for port in ports {
        args.push(plain(alloc, port)?)?;
    }
    Ok(args)
}

fn plain_outs(alloc: Global, ports: &[Port]) -> Result<List<OutArg>, NoMemory>
    ensures { IfGiven result (λ args. args ≡ map plain_out ports.now) }
{
    let mut args = List::new(alloc);
    for port in ports {
        args.push(OutArg::Old(plain(alloc, port)?))?;
    }
    Ok(args)
}

/// The calls of a farm of a module with these ports.
fn only_call(alloc: Global, worker: Spot, ports: &Module) -> Result<List<Call>, NoMemory>
    ensures { IfGiven result (λ calls. calls
        ≡ call_with worker ports.now.ins ports.now.outs ∷ []) }
{
    let ins = plain_ins(alloc, ports.ins.as_slice())?;
    let outs = plain_outs(alloc, ports.outs.as_slice())?;
    let mut calls = List::new(alloc);
    calls.push(Call {
        at: worker,
        ins,
        outs,
    })?;
    Ok(calls)
}

/// A farm of this name with a module's ports, and a worker of this name.
pub fn farm_with(alloc: Global, at: Spot, worker: Spot, ports: &Module) -> Result<Module, NoMemory>
    ensures { IfGiven result (λ farm. module_tree farm
        ≡ farm_with at worker ports.now.ins ports.now.outs) }
{
    let calls = only_call(alloc, worker, ports)?;
    let ins = copies(alloc, ports.ins.as_slice())?;
    let outs = copies(alloc, ports.outs.as_slice())?;
    Ok(Module {
        kind: Kind::Farm,
        at,
        ins,
        outs,
        clauses: no_clauses(),
        inside: Inside::Calls(calls),
    })
}

/// A farm of a module.
pub fn farm_of(alloc: Global, worker: &Module) -> Result<Module, NoMemory>
    ensures { IfGiven result (λ farm. module_tree farm ≡ farm_of (module_tree worker.now)) }
{
    let at = longer(alloc, &worker.at, FARM)?;
    let name = worker.at.copied(alloc)?;
    farm_with(alloc, at, name, worker)
}

/// True if one of these modules has a name.
pub fn is_among(modules: &[Module], name: &Name) -> bool
    ensures { result ≡ is_among (map module_tree modules.now) name.now }
{
    modules.iter().any(|module| module.at.name == *name)
}

/// A call of the farm of a module in place of that module, if it is among these.
pub fn farm_called(alloc: Global, farms: &[Module], call: &Call) -> Result<Call, NoMemory>
    ensures { IfGiven result (λ called. called ≡ farm_called (map module_tree farms.now) call.now) }
{
    let at = longer(alloc, &call.at, FARM)?;
    if !is_among(farms, &at.name) {
        return call.copied(alloc);
    }
    let ins = copies(alloc, call.ins.as_slice())?;
    let outs = copies(alloc, call.outs.as_slice())?;
    Ok(Call { at, ins, outs })
}

/// Calls where farms among these are called in place of their workers.
pub fn farms_called(alloc: Global, farms: &[Module], calls: &[Call]) -> Result<List<Call>, NoMemory>
    ensures { IfGiven result (λ called. called
        ≡ map (farm_called (map module_tree farms.now)) calls.now) }
{
    let mut called = List::new(alloc);
    for call in calls {
        called.push(farm_called(alloc, farms, call)?)?;
    }
    Ok(called)
}

// The nodes of an instance of a module.

ghost use Rattle.std.specs.Prelude.{◌≡◌, ◌+◌, ◌<◌, ◌≤◌, ◌∷◌, ◌++◌, IfOk, IfErr, length};
ghost use Rattle.p3l_base.specs.Limits.{most_nodes};
ghost use Rattle.p3l_base.specs.Memory.{IfGiven, OnGiven};
ghost use Rattle.p3l_check.specs.Wiring.{module_at};
ghost use Rattle.p3l_check.specs.Unfolding.{instance, node_of};
ghost use Rattle.p3l_check.specs.Levels.{CallsAreThere};
ghost use Rattle.p3l_check.specs.Refusing.{IsCutShort};

use crate::callables::Callable;
use crate::copy::copy_form;
use crate::unfolding::UnfoldRefusal;
use p3l_base::limits::MOST_NODES;
use p3l_base::{List, NoMemory};
use p3l_skel::Node;
use std::alloc::Global;

/// The module of a number.
fn module_of(callables: &[Callable], k: u32) -> &Callable
    requires { k < length callables.now }
    ensures { result.now ≡ module_at callables.now k }
{
    &callables[k as usize]
}

/// A node of module `k` with these parts, before the nodes of the parts.
fn with_parts(
    alloc: Global,
    callables: &Callable,
    k: u32,
    parts: List<u32>,
    below: Vec<Node>,
) -> Result<Vec<Node>, NoMemory>
    ensures { IfGiven result (λ nodes. nodes.items ≡ node_of callables.now k parts ∷ below.items) }
{
    let mut nodes = Vec::new(alloc);
    nodes.push(Node {
        form: copy_form(alloc, &callables.form)?,
        module: k,
        ins: callables.ins,
        outs: callables.outs,
        parts,
    })?;
    let mut below = below;
    nodes.append(&mut below)?;
    Ok(nodes)
}

/// Puts nodes after others.
fn extend(nodes: &mut Vec<Node>, more: Vec<Node>) -> Result<(), NoMemory>
    ensures { OnGiven result (nodes.new.items ≡ nodes.old.items ++ more.items) }
{
    let mut more = more;
    nodes.append(&mut more)?;
    Ok(())
}

/// The nodes of an instance of module `k`, whose first node has the number `at`, down to `levels`
/// levels. Refused as soon as there are too many nodes.
pub(crate) fn instance(
    alloc: Global,
    callables: &[Callable],
    levels: u32,
    k: u32,
    at: u32,
) -> Result<Vec<Node>, UnfoldRefusal>
    requires calls { CallsAreThere callables.now }
    requires module { k < length callables.now }
    requires room { at ≤ most_nodes }
    ensures nodes { IfOk result (λ nodes. nodes.items ≡ instance callables.now levels k at) }
    ensures few { IfOk result (λ nodes. at + length nodes.items ≤ most_nodes) }
    ensures refused { IfErr result (IsCutShort callables.now levels k at) }
{
    if levels == 0 {
        return Ok(Vec::new(alloc));
    }
    if at == MOST_NODES {
        return Err(UnfoldRefusal::TooManyInstances);
    }
    let module = module_of(callables, k);
    let mut below = Vec::new(alloc);
    let mut parts = List::new(alloc);
    for call in module.calls.as_slice() {
        let first = at + 1 + below.len() as u32;
        parts.push(first)?;
        let inner = instance(alloc, callables, levels - 1, *call, first)?;
        extend(&mut below, inner)?;
    }
    Ok(with_parts(alloc, module, k, parts, below)?)
}

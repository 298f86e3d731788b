// Copies of modules.

ghost use Rattle.std.specs.Prelude.{◌≡◌, IfOk};
ghost use Rattle.p3l_base.specs.Memory.{IfGiven};
ghost use Rattle.p3l_ast.specs.Tree.{statements, inside_tree, module_tree};

use crate::body::block;
use crate::copied::{Copied, copies};
use p3l_ast::{Block, Clauses, Inside, Module, Num, Port, Rescue, Spot};
use p3l_base::{List, NoMemory};
use std::alloc::Global;

impl Copied for Rescue {
    fn copied(&self, alloc: Global) -> Result<Rescue, NoMemory> {
        Ok(Rescue {
            minus: self.minus,
            num: self.num.copied(alloc)?,
        })
    }
}

/// A copy of what may be there.
fn option<T: Copied>(alloc: Global, given: &Option<T>) -> Result<Option<T>, NoMemory>
    ensures { IfGiven result (λ copy. copy ≡ given.now) }
{
    match given {
        None => Ok(None),
        Some(item) => Ok(Some(item.copied(alloc)?)),
    }
}

/// The limits that a loop's clauses give.
#[derive(Drop)]
struct Limits {
    turns: Option<Num>,
    tokens: Option<Num>,
}

impl Copied for Clauses {
    fn copied(&self, alloc: Global) -> Result<Clauses, NoMemory> {
        let workers = option(alloc, &self.workers)?;
        let limits = limits_of(alloc, self)?;
        let budget = option(alloc, &self.budget)?;
        let rescue = option(alloc, &self.rescue)?;
        let Limits { turns, tokens } = limits;
        Ok(Clauses {
            workers,
            turns,
            tokens,
            budget,
            rescue,
        })
    }
}

fn limits_of(alloc: Global, clauses: &Clauses) -> Result<Limits, NoMemory>
    ensures turns { IfGiven result (λ limits. limits.turns ≡ clauses.now.turns) }
    ensures tokens { IfOk result (λ limits. limits.tokens ≡ clauses.now.tokens) }
{
    let turns = option(alloc, &clauses.turns)?;
    let tokens = option(alloc, &clauses.tokens)?;
    Ok(Limits { turns, tokens })
}

fn body(alloc: Global, own: &Block) -> Result<Block, NoMemory>
    ensures locals { IfGiven result (λ copy. copy.locals ≡ own.now.locals) }
    ensures stmts { IfOk result (λ copy. statements copy.stmts ≡ statements own.now.stmts) }
{
    let locals = copies(alloc, own.locals.as_slice())?;
    let stmts = List::from_vec(block(alloc, own.stmts.as_slice())?);
    Ok(Block { locals, stmts })
}

fn inside(alloc: Global, own: &Inside) -> Result<Inside, NoMemory>
    ensures { IfGiven result (λ copy. inside_tree copy ≡ inside_tree own.now) }
{
    match own {
        Inside::Body(block) => Ok(Inside::Body(body(alloc, block)?)),
        Inside::Calls(calls) => Ok(Inside::Calls(copies(alloc, calls.as_slice())?)),
        Inside::Turning(turned, tested) => {
            let turned = turned.copied(alloc)?;
            let tested = tested.copied(alloc)?;
            Ok(Inside::Turning(turned, tested))
        }
    }
}

/// A copy of a module.
pub fn module(alloc: Global, own: &Module) -> Result<Module, NoMemory>
    ensures { IfGiven result (λ copy. module_tree copy ≡ module_tree own.now) }
{
    let inside = inside(alloc, &own.inside)?;
    with_inside(alloc, own, inside)
}

/// The ports of a module.
#[derive(Drop)]
struct Ports {
    ins: List<Port>,
    outs: List<Port>,
}

fn ports_of(alloc: Global, own: &Module) -> Result<Ports, NoMemory>
    ensures ins { IfGiven result (λ ports. ports.ins ≡ own.now.ins) }
    ensures outs { IfOk result (λ ports. ports.outs ≡ own.now.outs) }
{
    let ins = copies(alloc, own.ins.as_slice())?;
    let outs = copies(alloc, own.outs.as_slice())?;
    Ok(Ports { ins, outs })
}

/// The head of a module, before its inside.
#[derive(Drop)]
struct Header {
    at: Spot,
    ports: Ports,
    clauses: Clauses,
}

fn header_of(alloc: Global, own: &Module) -> Result<Header, NoMemory>
    ensures at { IfGiven result (λ header. header.at ≡ own.now.at) }
    ensures ins { IfOk result (λ header. header.ports.ins ≡ own.now.ins) }
    ensures outs { IfOk result (λ header. header.ports.outs ≡ own.now.outs) }
    ensures clauses { IfOk result (λ header. header.clauses ≡ own.now.clauses) }
{
    let at = own.at.copied(alloc)?;
    let ports = ports_of(alloc, own)?;
    let clauses = own.clauses.copied(alloc)?;
    Ok(Header { at, ports, clauses })
}

/// A copy of a module with something else inside.
pub fn with_inside(alloc: Global, own: &Module, inside: Inside) -> Result<Module, NoMemory>
    ensures { IfGiven result (λ copy. module_tree copy
        ≡ record {
          kind = own.now.kind;
          at = own.now.at;
          ins = own.now.ins;
          outs = own.now.outs;
          clauses = own.now.clauses;
          inside = inside_tree inside;
        }) }
{
    let Header { at, ports, clauses } = header_of(alloc, own)?;
    let Ports { ins, outs } = ports;
    Ok(Module {
        kind: own.kind,
        at,
        ins,
        outs,
        clauses,
        inside,
    })
}

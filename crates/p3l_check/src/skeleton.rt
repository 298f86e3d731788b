// The skeleton of a module: the rules of its clauses and calls, by its kind.

ghost use Rattle.std.specs.Prelude.{◌≡◌, [], ◌∷◌, ◌++◌, false, map, unwrap_or, IfOk};
ghost use Rattle.p3l_base.specs.Memory.{IfGiven};
ghost use Rattle.p3l_ast.specs.Tree.{module_tree};
ghost use Rattle.p3l_types.specs.Verdict.{Gives};
ghost use Rattle.p3l_body.specs.Scope.{named};
ghost use Rattle.p3l_body.specs.Seq.{port_names};
ghost use Rattle.p3l_calls.specs.Port.{AreSized};
ghost use Rattle.p3l_check.specs.Environment.{before_of};
ghost use Rattle.p3l_check.specs.Skeleton.{handed_on, staged, stages, farm_of, map_of, reduce_of, same_types, loop_rule, loop_body, loop_condition, loop_of, skeleton_of};

use crate::callee::{called, operator_called};
use crate::clauses::{farm_workers, map_workers, reduce_workers, tokens_of, turns_of};
use crate::environment::Environment;
use crate::inside::{call_of, calls_of, turning_of};
use p3l_ast::{Call, Fault, Kind, Module, SourceRefusal, Spot};
use p3l_base::{List, NoMemory};
use p3l_body::{Ports, Var, Variables};
use p3l_calls::{check_condition, check_plain_call, check_stage, cut_of, elements_of};
use p3l_skel::Form;
use std::alloc::Global;

/// The form of a module, the numbers of the modules that it calls, and true if it is sequential.
#[derive(Debug, Drop)]
pub struct Skeleton {
    pub form: Form,
    pub calls: List<u32>,
    pub sequential: bool,
}

/// A list of one number.
fn one(alloc: Global, k: u32) -> Result<List<u32>, NoMemory>
    ensures { IfGiven result (λ list. list ≡ k ∷ []) }
{
    let mut list = List::new(alloc);
    list.push(k)?;
    Ok(list)
}

/// The variables that a call of a pipe or a comp hands on.
fn hand_on(
    alloc: Global,
    env: Environment<'_>,
    scope: &mut Variables,
    taken: &[Var],
    outs: &[Var],
    is_last: bool,
    callee: &Ports,
    call: &Call,
) -> Result<List<Var>, SourceRefusal>
    ensures vars { Gives result (handed_on (before_of env.entry)
        scope.old taken.now outs.now is_last callee.now call.now) }
    ensures names { IfOk result (λ vars. scope.new ≡ scope.old ++ map (named false) vars) }
{
    if is_last {
        check_plain_call(taken, outs, callee, call)?;
        return Ok(List::new(alloc));
    }
    check_stage(alloc, env.consts, scope, taken, callee, call)
}

/// The variables that were handed on, and the ins of the module before its first call.
fn taken<'b>(handed: &'b Option<List<Var>>, ins: &'b [Var]) -> &'b [Var]
    ensures { result.now ≡ unwrap_or handed.now ins.now }
{
    match handed {
        Some(vars) => vars.as_slice(),
        None => ins,
    }
}

/// The calls of a pipe or a comp in order.
fn staged(
    alloc: Global,
    in_process: bool,
    env: Environment<'_>,
    scope: &mut Variables,
    ports: &Ports,
    calls: &[Call],
) -> Result<List<u32>, SourceRefusal>
    ensures { Gives result (staged in_process (before_of env.entry)
        scope.old ports.now.ins ports.now.outs calls.now) }
{
    let mut numbers = List::new(alloc);
    let mut handed = None;
    for (i, call) in calls.iter().enumerate() {
        let k = called(in_process, env, call)?;
        let vars = hand_on(
            alloc,
            env,
            scope,
            taken(&handed, ports.ins.as_slice()),
            ports.outs.as_slice(),
            i + 1 == calls.len(),
            env.modules.ports(k),
            call,
        )?;
        handed = Some(vars);
        numbers.push(k)?;
    }
    Ok(numbers)
}

/// The calls of a pipe, or of a comp, whose modules all run in one process.
fn stages(
    alloc: Global,
    in_process: bool,
    env: Environment<'_>,
    module: &Module,
    scope: &mut Variables,
    ports: &Ports,
) -> Result<List<u32>, SourceRefusal>
    requires { scope.old ≡ port_names ports.now }
    ensures { Gives result (stages in_process (before_of env.entry) (module_tree «module».now)
        ports.now) }
{
    let calls = calls_of(module.at.pos, &module.inside)?;
    staged(alloc, in_process, env, scope, ports, calls)
}

/// The workers of a farm, and then its call.
fn farm_of(
    alloc: Global,
    env: Environment<'_>,
    module: &Module,
    ports: &Ports,
) -> Result<Skeleton, SourceRefusal>
    ensures { Gives result (farm_of (before_of env.entry) (module_tree «module».now) ports.now) }
{
    let workers = farm_workers(env.consts, &module.clauses.workers)?;
    let call = call_of(module.at.pos, &module.inside)?;
    let k = called(false, env, call)?;
    check_plain_call(
        ports.ins.as_slice(),
        ports.outs.as_slice(),
        env.modules.ports(k),
        call,
    )?;
    Ok(Skeleton {
        form: Form::Farm { workers },
        calls: one(alloc, k)?,
        sequential: false,
    })
}

/// The call of a map, and then its workers.
fn map_of(
    alloc: Global,
    env: Environment<'_>,
    module: &Module,
    ports: &Ports,
) -> Result<Skeleton, SourceRefusal>
    requires ins { AreSized ports.now.ins }
    requires outs { AreSized ports.now.outs }
    ensures { Gives result (map_of (before_of env.entry) (module_tree «module».now) ports.now) }
{
    let call = call_of(module.at.pos, &module.inside)?;
    let k = called(false, env, call)?;
    let cut = cut_of(alloc, ports, env.modules.ports(k), call)?;
    let elements = cut.first as u64 * cut.second as u64;
    let workers = map_workers(elements, env.consts, &module.clauses.workers)?;
    Ok(Skeleton {
        form: Form::Map { workers, cut },
        calls: one(alloc, k)?,
        sequential: env.modules.is_sequential(k),
    })
}

/// The call of a reduce, and then its workers.
fn reduce_of(
    alloc: Global,
    env: Environment<'_>,
    module: &Module,
    ports: &Ports,
) -> Result<Skeleton, SourceRefusal>
    requires { AreSized ports.now.outs }
    ensures { Gives result (reduce_of (before_of env.entry) (module_tree «module».now) ports.now) }
{
    let call = call_of(module.at.pos, &module.inside)?;
    let k = operator_called(env, call)?;
    let elements = elements_of(module.at.pos, ports, env.modules.ports(k), call)?;
    let workers = reduce_workers(elements.len, env.consts, &module.clauses.workers)?;
    Ok(Skeleton {
        form: Form::Reduce {
            workers,
            len: elements.len,
            elem: elements.elem,
        },
        calls: one(alloc, k)?,
        sequential: env.modules.is_sequential(k),
    })
}

/// True if variables have equal sizes in order.
#[tactic(auto, using(crate::proofs::Totals::types))]
fn same_types(vars: &[Var], others: &[Var]) -> bool
    ensures { result ≡ same_types vars.now others.now }
{
    let mut left = others;
    for var in vars {
        let [other, rest @ ..] = left else {
            return false;
        };
        if var.shape.sizes.as_slice() != other.shape.sizes.as_slice() {
            return false;
        }
        left = rest;
    }
    left.is_empty()
}

/// The ins and outs of a loop have the same types in order.
fn check_loop(ports: &Ports, at: &Spot) -> Result<(), SourceRefusal>
    ensures { result ≡ loop_rule ports.now at.now }
{
    if same_types(ports.ins.as_slice(), ports.outs.as_slice()) {
        return Ok(());
    }
    Err(SourceRefusal::At {
        fault: Fault::LoopTypes,
        pos: at.pos,
    })
}

/// The body of a loop.
fn loop_body(env: Environment<'_>, ports: &Ports, call: &Call) -> Result<u32, SourceRefusal>
    ensures { result ≡ loop_body (before_of env.entry) ports.now call.now }
{
    let k = called(false, env, call)?;
    check_plain_call(
        ports.ins.as_slice(),
        ports.outs.as_slice(),
        env.modules.ports(k),
        call,
    )?;
    Ok(k)
}

/// The condition of a loop.
fn loop_condition(
    alloc: Global,
    env: Environment<'_>,
    scope: &Variables,
    ports: &Ports,
    call: &Call,
) -> Result<u32, SourceRefusal>
    requires { scope.now ≡ port_names ports.now }
    ensures { Gives result (loop_condition (before_of env.entry) ports.now call.now) }
{
    let k = called(true, env, call)?;
    check_condition(
        alloc,
        env.consts,
        scope,
        ports.outs.as_slice(),
        env.modules.ports(k),
        call,
    )?;
    Ok(k)
}

/// A list of two numbers.
fn two(alloc: Global, k: u32, l: u32) -> Result<List<u32>, NoMemory>
    ensures { IfGiven result (λ list. list ≡ k ∷ l ∷ []) }
{
    let mut list = List::new(alloc);
    list.push(k)?;
    list.push(l)?;
    Ok(list)
}

/// The turns and tokens of a loop, its types, its body, its condition.
fn loop_of(
    alloc: Global,
    env: Environment<'_>,
    module: &Module,
    scope: &Variables,
    ports: &Ports,
) -> Result<Skeleton, SourceRefusal>
    requires { scope.now ≡ port_names ports.now }
    ensures { Gives result (loop_of (before_of env.entry) (module_tree «module».now) ports.now) }
{
    let turns = turns_of(module.at.pos, env.consts, &module.clauses.turns)?;
    let tokens = tokens_of(env.consts, &module.clauses.tokens)?;
    check_loop(ports, &module.at)?;
    let (body, condition) = turning_of(module.at.pos, &module.inside)?;
    let body = loop_body(env, ports, body)?;
    let condition = loop_condition(alloc, env, scope, ports, condition)?;
    Ok(Skeleton {
        form: Form::Loop { turns, tokens },
        calls: two(alloc, body, condition)?,
        sequential: false,
    })
}

/// The skeleton of these calls.
fn of_calls(form: Form, calls: List<u32>, sequential: bool) -> Skeleton
    ensures { result ≡ record { form = form; calls = calls; sequential = sequential } }
{
    Skeleton {
        form,
        calls,
        sequential,
    }
}

/// A module by the rules of its kind, after those of its ports, whose names are in the scope.
pub fn skeleton_of(
    alloc: Global,
    env: Environment<'_>,
    module: &Module,
    scope: &mut Variables,
    ports: &Ports,
) -> Result<Skeleton, SourceRefusal>
    requires names { scope.old ≡ port_names ports.now }
    requires ins { AreSized ports.now.ins }
    requires outs { AreSized ports.now.outs }
    ensures { Gives result (skeleton_of «module».now.kind (before_of env.entry)
        (module_tree «module».now) ports.now) }
{
    match module.kind {
        Kind::Seq => Ok(of_calls(Form::Seq, List::new(alloc), true)),
        Kind::Comp => {
            let calls = stages(alloc, true, env, module, scope, ports)?;
            Ok(of_calls(Form::Comp, calls, true))
        }
        Kind::Pipe => {
            let calls = stages(alloc, false, env, module, scope, ports)?;
            Ok(of_calls(Form::Pipe, calls, false))
        }
        Kind::Farm => farm_of(alloc, env, module, ports),
        Kind::Map => map_of(alloc, env, module, ports),
        Kind::Reduce => reduce_of(alloc, env, module, ports),
        Kind::Loop => loop_of(alloc, env, module, scope, ports),
    }
}

// The module that a call names, and whether it may be called so.

ghost use Rattle.std.specs.Prelude.{◌≡◌, ◌<◌, IfOk, length};
ghost use Rattle.p3l_check.specs.Environment.{before_of};
ghost use Rattle.p3l_check.specs.Callee.{callee_of, process_rule, arity_rule, one_each_rule, operator_rule, runnable_callee, called, operator_called};

use crate::environment::Environment;
use crate::modules::Modules;
use p3l_ast::{Call, Fault, SourceRefusal, Spot};
use p3l_body::Ports;

/// The number of the earlier module that a call names.
fn callee_of(env: Environment<'_>, at: &Spot) -> Result<u32, SourceRefusal>
    ensures callee { result ≡ callee_of (before_of env.entry) at.now }
    ensures within { IfOk result (λ k. k < length (before_of env.entry).modules.callables) }
{
    if let Some(number) = env.modules.number(&at.name) {
        return Ok(number);
    }
    let fault = if env.places.is_defined_from(env.from, &at.name) {
        Fault::UsedBeforeDefined
    } else {
        Fault::UnknownName
    };
    Err(SourceRefusal::At { fault, pos: at.pos })
}

/// In one process only sequential modules run.
fn check_process(
    in_process: bool,
    modules: &Modules,
    k: u32,
    at: &Spot,
) -> Result<(), SourceRefusal>
    requires { k < length modules.now.callables }
    ensures { result ≡ process_rule in_process modules.now k at.now }
{
    if in_process && !modules.is_sequential(k) {
        return Err(SourceRefusal::At {
            fault: Fault::NotInComp,
            pos: at.pos,
        });
    }
    Ok(())
}

/// A call has as many ins and outs as its callee.
fn check_arity(callee: &Ports, call: &Call) -> Result<(), SourceRefusal>
    ensures { result ≡ arity_rule callee.now call.now }
{
    if call.ins.len() == callee.ins.len() && call.outs.len() == callee.outs.len() {
        return Ok(());
    }
    Err(SourceRefusal::At {
        fault: Fault::Arity,
        pos: call.at.pos,
    })
}

/// A call of an operator has one in and one out.
fn check_one_each(call: &Call) -> Result<(), SourceRefusal>
    ensures { result ≡ one_each_rule call.now }
{
    if call.ins.len() == 1 && call.outs.len() == 1 {
        return Ok(());
    }
    Err(SourceRefusal::At {
        fault: Fault::Arity,
        pos: call.at.pos,
    })
}

/// An operator has two ins and one out.
fn check_operator(callee: &Ports, at: &Spot) -> Result<(), SourceRefusal>
    ensures { result ≡ operator_rule callee.now at.now }
{
    if callee.ins.len() == 2 && callee.outs.len() == 1 {
        return Ok(());
    }
    Err(SourceRefusal::At {
        fault: Fault::BadOperator,
        pos: at.pos,
    })
}

/// The number of an earlier module that may run where the call is.
fn runnable_callee(
    in_process: bool,
    env: Environment<'_>,
    call: &Call,
) -> Result<u32, SourceRefusal>
    ensures callee { result ≡ runnable_callee in_process (before_of env.entry) call.now }
    ensures within { IfOk result (λ k. k < length (before_of env.entry).modules.callables) }
{
    let k = callee_of(env, &call.at)?;
    check_process(in_process, env.modules, k, &call.at)?;
    Ok(k)
}

/// The number of the module that a call names; all is checked but the arguments.
pub fn called(in_process: bool, env: Environment<'_>, call: &Call) -> Result<u32, SourceRefusal>
    ensures callee { result ≡ called in_process (before_of env.entry) call.now }
    ensures within { IfOk result (λ k. k < length (before_of env.entry).modules.callables) }
{
    let k = runnable_callee(in_process, env, call)?;
    check_arity(env.modules.ports(k), call)?;
    Ok(k)
}

/// The number of a reduce's operator; all is checked but the arguments.
pub fn operator_called(env: Environment<'_>, call: &Call) -> Result<u32, SourceRefusal>
    ensures callee { result ≡ operator_called (before_of env.entry) call.now }
    ensures within { IfOk result (λ k. k < length (before_of env.entry).modules.callables) }
{
    let k = runnable_callee(true, env, call)?;
    check_operator(env.modules.ports(k), &call.at)?;
    check_one_each(call)?;
    Ok(k)
}

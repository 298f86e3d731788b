// Arguments that are names in order, without brackets.

ghost use Rattle.std.specs.Prelude.{◌≡◌, length, nat_lt, slice_get};
ghost use Rattle.p3l_ast.specs.declared.refusal.Fault.TheVariants.{Wiring};
ghost use Rattle.p3l_types.specs.Verdict.{broken_if};
ghost use Rattle.p3l_calls.specs.Plain.{is_plain, plain_rule, plain_out_rule, in_order, plain_ins, plain_outs, plain_call};

use crate::port::{has_shape, refused};
use p3l_ast::{Arg, Call, Fault, OutArg, Pos, SourceRefusal};
use p3l_base::Name;
use p3l_body::{Ports, Var};

/// True if an argument is this name without brackets.
pub(crate) fn is_plain(name: &Name, arg: &Arg) -> bool
    ensures { result ≡ is_plain name.now arg.now }
{
    *name == arg.at.name && arg.subs.is_empty()
}

/// An argument in the place of the variable and of the callee's port of this number.
fn check_plain(vars: &[Var], ports: &[Var], k: usize, arg: &Arg) -> Result<(), SourceRefusal>
    ensures { result ≡ plain_rule (slice_get vars.now k) (slice_get ports.now k) arg.now }
{
    let Some(var) = vars.get(k) else {
        return refused(Fault::Wiring, arg.at.pos);
    };
    if !is_plain(&var.name, arg) {
        return refused(Fault::Wiring, arg.at.pos);
    }
    if !has_shape(ports, k, &var.shape) {
        return refused(Fault::TypeDiffers, arg.at.pos);
    }
    Ok(())
}

/// An out argument in the place of the variable and of the callee's port of this number.
fn check_plain_out(vars: &[Var], ports: &[Var], k: usize, out: &OutArg) -> Result<(), SourceRefusal>
    ensures { result ≡ plain_out_rule (slice_get vars.now k) (slice_get ports.now k) out.now }
{
    match out {
        OutArg::Fresh(port) => refused(Fault::Wiring, port.at.pos),
        OutArg::Old(arg) => check_plain(vars, ports, k, arg),
    }
}

/// Names that are expected must end where the entries of a call end.
pub(crate) fn check_end(vars: &[Var], entries: usize, call: Pos) -> Result<(), SourceRefusal>
    ensures { result ≡ broken_if (nat_lt entries (length vars.now)) Wiring call }
{
    if entries < vars.len() {
        return refused(Fault::Wiring, call);
    }
    Ok(())
}

/// The ins of a call are these variables in order.
#[tactic(auto, using(crate::proofs::Orders::entries))]
pub(crate) fn check_plain_ins(
    vars: &[Var],
    callee: &Ports,
    call: &Call,
) -> Result<(), SourceRefusal>
    ensures { result ≡ plain_ins vars.now callee.now call.now }
{
    let ports = callee.ins.as_slice();
    let args = call.ins.as_slice();
    for (k, arg) in args.iter().enumerate() {
        check_plain(vars, ports, k, arg)?;
    }
    check_end(vars, args.len(), call.at.pos)
}

/// The outs of a call are these variables in order.
#[tactic(auto, using(crate::proofs::Orders::entries))]
fn check_plain_outs(vars: &[Var], callee: &Ports, call: &Call) -> Result<(), SourceRefusal>
    ensures { result ≡ plain_outs vars.now callee.now call.now }
{
    let ports = callee.outs.as_slice();
    let outs = call.outs.as_slice();
    for (k, out) in outs.iter().enumerate() {
        check_plain_out(vars, ports, k, out)?;
    }
    check_end(vars, outs.len(), call.at.pos)
}

/// Checks the call of a farm, of the body of a loop, or the last one of a pipe or a comp: it is
/// handed the variables `taken` and fills `filled`, each in order and with the callee's shapes.
pub fn check_plain_call(
    taken: &[Var],
    filled: &[Var],
    callee: &Ports,
    call: &Call,
) -> Result<(), SourceRefusal>
    ensures { result ≡ plain_call taken.now filled.now callee.now call.now }
{
    check_plain_ins(taken, callee, call)?;
    check_plain_outs(filled, callee, call)
}

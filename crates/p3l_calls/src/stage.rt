// A call of a pipe or a comp that another follows.

ghost use Rattle.std.specs.Prelude.{◌≡◌, ◌+◌, ◌≤◌, ◌++◌, None, false, IfOk, map, slice_get, bytes_eq};
ghost use Rattle.p3l_base.specs.Limits.{most_words};
ghost use Rattle.std.specs.Map.{lookup};
ghost use Rattle.p3l_types.specs.Verdict.{Gives};
ghost use Rattle.p3l_types.specs.Shape.{product};
ghost use Rattle.p3l_body.specs.Scope.{named};
ghost use Rattle.p3l_calls.specs.Stage.{fresh_out, fresh_outs, stage};

use crate::plain::check_plain_ins;
use crate::port::{has_shape, refused};
use p3l_ast::{Call, Fault, OutArg, SourceRefusal};
use p3l_base::List;
use p3l_body::{Ports, Var, Variables, declare_one, enter};
use p3l_types::{Consts, words_of};
use std::alloc::Global;

/// A new port in the place of the callee's port of this number, after others of `words` words.
fn fresh_out(
    alloc: Global,
    consts: &Consts,
    scope: &Variables,
    words: u64,
    ports: &[Var],
    k: usize,
    out: &OutArg,
) -> Result<Var, SourceRefusal>
    requires { words ≤ most_words }
    ensures var { Gives result (fresh_out consts.now scope.now words (slice_get ports.now k)
        out.now) }
    ensures few { IfOk result (λ var. words + product var.shape.sizes ≤ most_words) }
    ensures fresh { IfOk result (λ var. lookup (bytes_eq var.name) scope.now ≡ None) }
{
    let fresh = match out {
        OutArg::Old(arg) => return refused(Fault::Wiring, arg.at.pos),
        OutArg::Fresh(port) => port,
    };
    let var = declare_one(alloc, Fault::Twice, consts, scope, words, fresh)?;
    if !has_shape(ports, k, &var.shape) {
        return refused(Fault::TypeDiffers, fresh.at.pos);
    }
    Ok(var)
}

/// The new ports that the outs of a call are, whose names are then in the scope.
#[tactic(auto, using(crate::proofs::Fresh::ports))]
fn fresh_outs(
    alloc: Global,
    consts: &Consts,
    scope: &mut Variables,
    ports: &[Var],
    outs: &[OutArg],
) -> Result<List<Var>, SourceRefusal>
    ensures vars { Gives result (fresh_outs consts.now scope.old 0 ports.now outs.now) }
    ensures names { IfOk result (λ vars. scope.new ≡ scope.old ++ map (named false) vars) }
{
    let mut vars = List::new(alloc);
    let mut words = 0;
    for (k, out) in outs.iter().enumerate() {
        let var = fresh_out(alloc, consts, scope, words, ports, k, out)?;
        enter(alloc, false, scope, &var)?;
        words += words_of(&var.shape) as u64;
        vars.push(var)?;
    }
    Ok(vars)
}

/// Checks a call of a pipe or a comp that another follows. It is handed the variables `taken`, in
/// order; its outs are new ports, which the next call takes, and whose names are then in the scope.
pub fn check_stage(
    alloc: Global,
    consts: &Consts,
    scope: &mut Variables,
    taken: &[Var],
    callee: &Ports,
    call: &Call,
) -> Result<List<Var>, SourceRefusal>
    ensures offered { Gives result (stage consts.now scope.old taken.now callee.now call.now) }
    ensures names { IfOk result (λ vars. scope.new ≡ scope.old ++ map (named false) vars) }
{
    check_plain_ins(taken, callee, call)?;
    fresh_outs(
        alloc,
        consts,
        scope,
        callee.outs.as_slice(),
        call.outs.as_slice(),
    )
}

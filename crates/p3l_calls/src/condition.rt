// The condition of a loop.

ghost use Rattle.std.specs.Prelude.{◌≡◌};
ghost use Rattle.p3l_types.specs.Verdict.{Gives};
ghost use Rattle.p3l_calls.specs.Condition.{condition_out, condition};

use crate::plain::check_plain_ins;
use crate::port::refused;
use p3l_ast::{Call, Fault, OutArg, Pos, SourceRefusal};
use p3l_body::{Ports, Var, Variables, declare_one};
use p3l_types::Consts;
use std::alloc::Global;

/// The outs of a condition: one new port without sizes, for a scalar of the callee.
fn check_condition_out(
    alloc: Global,
    consts: &Consts,
    scope: &Variables,
    call: Pos,
    ports: &[Var],
    outs: &[OutArg],
) -> Result<(), SourceRefusal>
    ensures { Gives result (condition_out consts.now scope.now call ports.now outs.now) }
{
    let ([port], [OutArg::Fresh(fresh)]) = (ports, outs) else {
        return refused(Fault::LoopTypes, call);
    };
    if !fresh.sizes.is_empty() || !port.shape.sizes.is_empty() {
        return refused(Fault::LoopTypes, call);
    }
    declare_one(alloc, Fault::Twice, consts, scope, 0, fresh)?;
    Ok(())
}

/// Checks the condition of a loop: it is handed the loop's outs in order, and gives a number in a new
/// port.
pub fn check_condition(
    alloc: Global,
    consts: &Consts,
    scope: &Variables,
    loop_outs: &[Var],
    callee: &Ports,
    call: &Call,
) -> Result<(), SourceRefusal>
    ensures { Gives result (condition consts.now scope.now loop_outs.now callee.now call.now) }
{
    check_plain_ins(loop_outs, callee, call)?;
    check_condition_out(
        alloc,
        consts,
        scope,
        call.at.pos,
        callee.outs.as_slice(),
        call.outs.as_slice(),
    )
}

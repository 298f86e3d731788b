// The ports of modules, and the numbers of their clauses.

ghost use Rattle.std.specs.Prelude.{◌≡◌, [], ◌≤◌, IfOk};
ghost use Rattle.p3l_types.specs.Verdict.{Gives};
ghost use Rattle.p3l_body.specs.Seq.{ports_of, port_names, limited, budget_of, signed, rescue_of};

use crate::scope::{Variables, declare};
use crate::var::Var;
use p3l_ast::meaning::operator::unary;
use p3l_ast::{Fault, Num, Port, Rescue, SourceRefusal, UnOp};
use p3l_base::List;
use p3l_base::limits::MOST_BUDGET;
use p3l_types::{Consts, natural, place_of, value_of};
use std::alloc::Global;

/// The ports of a module, with their shapes.
#[derive(Debug, Drop)]
pub struct Ports {
    pub ins: List<Var>,
    pub outs: List<Var>,
}

/// The ports of a module, whose names are then in the scope.
pub fn ports_of(
    alloc: Global,
    consts: &Consts,
    scope: &mut Variables,
    ins: &[Port],
    outs: &[Port],
) -> Result<Ports, SourceRefusal>
    requires { scope.old ≡ [] }
    ensures ports { Gives result (ports_of consts.now ins.now outs.now) }
    ensures names { IfOk result (λ ports. scope.new ≡ port_names ports) }
{
    let ins = declare(alloc, Fault::Twice, true, consts, scope, ins)?;
    let outs = declare(alloc, Fault::Twice, false, consts, scope, outs)?;
    Ok(Ports { ins, outs })
}

/// The number of a clause, which must be from `low` to `high`.
pub fn limited(low: u32, high: u32, consts: &Consts, num: &Num) -> Result<u32, SourceRefusal>
    ensures { result ≡ limited low high consts.now num.now }
{
    let value = natural(value_of(num, consts)?);
    if low as u64 <= value && value <= high as u64 {
        Ok(value as u32)
    } else {
        Err(SourceRefusal::At {
            fault: Fault::BadWorkers,
            pos: place_of(num),
        })
    }
}

/// The budget of a body without a clause.
const USUAL_BUDGET: u32 = 1_000_000;

/// The turns that the loops of a body may begin.
pub fn budget_of(consts: &Consts, clause: &Option<Num>) -> Result<u32, SourceRefusal>
    ensures { result ≡ budget_of consts.now clause.now }
{
    match clause {
        Some(num) => limited(1, MOST_BUDGET, consts, num),
        None => Ok(USUAL_BUDGET),
    }
}

/// A number, or after a minus what the minus of bodies makes of it.
fn signed(minus: bool, value: i64) -> i64
    ensures { result ≡ signed minus value }
{
    if minus {
        unary(UnOp::Neg, value)
    } else {
        value
    }
}

/// The rescue number of a module, if its clause is given.
pub fn rescue_of(consts: &Consts, clause: &Option<Rescue>) -> Result<Option<i64>, SourceRefusal>
    ensures { result ≡ rescue_of consts.now clause.now }
{
    match clause {
        Some(rescue) => Ok(Some(signed(rescue.minus, value_of(&rescue.num, consts)?))),
        None => Ok(None),
    }
}

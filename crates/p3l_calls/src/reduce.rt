// The call of a reduce.

ghost use Rattle.std.specs.Prelude.{◌≡◌, ◌≤◌};
ghost use Rattle.p3l_base.specs.Limits.{most_words};
ghost use Rattle.p3l_types.specs.Shape.{product};
ghost use Rattle.p3l_calls.specs.Port.{AreSized};
ghost use Rattle.p3l_calls.specs.Index.{free_count};
ghost use Rattle.p3l_calls.specs.Reduce.{frees_first, is_rows, rows_rule, result_rule, all_have, is_operator, reduce_rule, folded, elements_of};

use crate::index::free_count;
use crate::plain::is_plain;
use crate::port::{refused, same_sizes};
use p3l_ast::{Arg, Call, Fault, OutArg, Pos, SourceRefusal, Sub};
use p3l_body::{Ports, Var};
use p3l_types::words_of;

/// The elements that a reduce folds: their number, and the words of each.
#[derive(Clone, Copy, Debug, Drop, PartialEq, Eq)]
pub struct Elements {
    pub len: u32,
    pub elem: u32,
}

/// True if the first bracket holds a free index and no other does.
fn frees_first(subs: &[Sub]) -> bool
    ensures { result ≡ frees_first subs.now }
{
    match subs {
        [Sub::Free(_), rest @ ..] => free_count(rest) == 0,
        _ => false,
    }
}

/// True if an argument is the array with a bracket for each size, the first free.
fn is_rows(array: &Var, arg: &Arg) -> bool
    ensures { result ≡ is_rows array.now arg.now }
{
    let subs = arg.subs.as_slice();
    array.name == arg.at.name && subs.len() == array.shape.sizes.len() && frees_first(subs)
}

/// The call hands over the elements of the array.
fn check_rows(call: Pos, array: &Var, args: &[Arg]) -> Result<(), SourceRefusal>
    ensures { result ≡ rows_rule call array.now args.now }
{
    let [arg] = args else {
        return refused(Fault::Arity, call);
    };
    if !is_rows(array, arg) {
        return refused(Fault::FreeIndex, arg.at.pos);
    }
    Ok(())
}

/// The call fills the out.
fn check_result(call: Pos, out: &Var, outs: &[OutArg]) -> Result<(), SourceRefusal>
    ensures { result ≡ result_rule call out.now outs.now }
{
    match outs {
        [OutArg::Fresh(port)] => refused(Fault::Wiring, port.at.pos),
        [OutArg::Old(arg)] => {
            if !is_plain(&out.name, arg) {
                return refused(Fault::Wiring, arg.at.pos);
            }
            Ok(())
        }
        _ => refused(Fault::Arity, call),
    }
}

/// True if all ports have these sizes.
fn all_have(sizes: &[u32], ports: &[Var]) -> bool
    ensures { result ≡ all_have sizes.now ports.now }
{
    ports
        .iter()
        .all(|port| same_sizes(port.shape.sizes.as_slice(), sizes))
}

/// True if the callee takes two elements of these sizes and gives one.
fn is_operator(element: &[u32], callee: &Ports) -> bool
    ensures { result ≡ is_operator element.now callee.now }
{
    callee.ins.len() == 2
        && callee.outs.len() == 1
        && all_have(element, callee.ins.as_slice())
        && all_have(element, callee.outs.as_slice())
}

/// The call of a reduce of an array whose elements have these sizes.
fn check_reduce(
    array: &Var,
    element: &[u32],
    out: &Var,
    callee: &Ports,
    call: &Call,
) -> Result<(), SourceRefusal>
    ensures { result ≡ reduce_rule array.now element.now out.now callee.now call.now }
{
    check_rows(call.at.pos, array, call.ins.as_slice())?;
    check_result(call.at.pos, out, call.outs.as_slice())?;
    if !is_operator(element, callee) || !same_sizes(out.shape.sizes.as_slice(), element) {
        return refused(Fault::BadOperator, call.at.pos);
    }
    Ok(())
}

/// The elements of the in port of a reduce, which has these sizes.
#[tactic(auto, using(crate::proofs::Operators::fits))]
fn folded(
    home: Pos,
    array: &Var,
    sizes: &[u32],
    out: &Var,
    callee: &Ports,
    call: &Call,
) -> Result<Elements, SourceRefusal>
    requires { product out.now.shape.sizes ≤ most_words }
    ensures { result ≡ folded home array.now sizes.now out.now callee.now call.now }
{
    let Some((len, element)) = sizes.split_first() else {
        return refused(Fault::BadOperator, home);
    };
    check_reduce(array, element, out, callee, call)?;
    // the out has the shape of an element
    let elem = words_of(&out.shape);
    Ok(Elements { len: *len, elem })
}

/// The elements that a reduce with these ports folds, if its call keeps the rules; `home` is where the
/// reduce's own name is.
pub fn elements_of(
    home: Pos,
    ports: &Ports,
    callee: &Ports,
    call: &Call,
) -> Result<Elements, SourceRefusal>
    requires { AreSized ports.now.outs }
    ensures { result ≡ elements_of home ports.now callee.now call.now }
{
    let ([array], [out]) = (ports.ins.as_slice(), ports.outs.as_slice()) else {
        return refused(Fault::BadOperator, home);
    };
    folded(home, array, array.shape.sizes.as_slice(), out, callee, call)
}

// The call of a map.

ghost use Rattle.std.specs.Prelude.{◌≡◌, ◌+◌, ◌≤◌, IfOk, drop, slice_get, bytes_eq};
ghost use Rattle.p3l_base.specs.Limits.{most_words};
ghost use Rattle.p3l_base.specs.Memory.{IfGiven};
ghost use Rattle.std.specs.Map.{lookup};
ghost use Rattle.p3l_base.specs.Slice.{array_size};
ghost use Rattle.p3l_types.specs.Verdict.{Gives};
ghost use Rattle.p3l_calls.specs.Port.{AreSized, total};
ghost use Rattle.p3l_calls.specs.Map.{dims_of, slice_of, leaves, map_out_rule, map_in_rule, map_out, map_outs, map_in, map_ins, indices_of, cut_of};

use crate::index::{
    Index, are_indices, check_members, check_sizes, first_size, has_indices, indices_in, place_in,
    second_size,
};
use crate::located::{Located, PortTable, locate};
use crate::plain::check_end;
use crate::port::{has_shape, refused};
use p3l_ast::{Arg, Call, Fault, OutArg, Pos, SourceRefusal, Sub};
use p3l_base::slice::array_len;
use p3l_base::{Cut, Dim, List, NoMemory, Slice};
use p3l_body::{Ports, Var};
use p3l_types::{Shape, sliced};
use std::alloc::Global;

/// The dimensions of an array under brackets.
#[tactic(auto, using(crate::proofs::Slices::dimensions))]
fn dims_of(
    alloc: Global,
    indices: &[Index],
    subs: &[Sub],
    sizes: &[u32],
) -> Result<List<Dim>, NoMemory>
    ensures { IfGiven result (λ dims. dims ≡ dims_of indices.now subs.now sizes.now) }
{
    let mut dims = List::new(alloc);
    for (k, size) in sizes.iter().enumerate() {
        dims.push(Dim {
            size: *size,
            place: place_in(indices, subs, k),
        })?;
    }
    Ok(dims)
}

/// An array under brackets, which starts at a word.
fn slice_of(
    alloc: Global,
    indices: &[Index],
    start: u32,
    arg: &Arg,
    shape: &Shape,
) -> Result<Slice, NoMemory>
    ensures { IfGiven result (λ slice. slice ≡ slice_of indices.now start arg.now shape.now) }
{
    let dims = dims_of(alloc, indices, arg.subs.as_slice(), shape.sizes.as_slice())?;
    Ok(Slice { start, dims })
}

/// True if the brackets leave the shape of the callee's port of this number.
fn leaves(
    alloc: Global,
    ports: &[Var],
    k: usize,
    arg: &Arg,
    shape: &Shape,
) -> Result<bool, NoMemory>
    ensures { IfGiven result (λ b. b ≡ leaves (slice_get ports.now k) arg.now.subs shape.now) }
{
    match sliced(alloc, arg, shape)? {
        Some(left) => Ok(has_shape(ports, k, &left)),
        None => Ok(false),
    }
}

/// An out argument in the place of this out port and of the callee's port of this number.
fn check_map_out(
    alloc: Global,
    indices: &[Index],
    var: &Var,
    ports: &[Var],
    k: usize,
    arg: &Arg,
) -> Result<(), SourceRefusal>
    ensures { Gives result (map_out_rule indices.now var.now (slice_get ports.now k) arg.now) }
{
    let subs = arg.subs.as_slice();
    let sizes = var.shape.sizes.as_slice();
    if var.name != arg.at.name {
        return refused(Fault::Wiring, arg.at.pos);
    }
    if subs.len() != sizes.len() {
        return refused(Fault::TypeDiffers, arg.at.pos);
    }
    if !are_indices(indices) || !has_indices(indices, subs) {
        return refused(Fault::FreeIndex, arg.at.pos);
    }
    check_sizes(indices, subs, sizes)?;
    if !leaves(alloc, ports, k, arg, &var.shape)? {
        return refused(Fault::TypeDiffers, arg.at.pos);
    }
    Ok(())
}

/// The slice of an out argument, which starts at a word, in the place of the out port and of the
/// callee's port of this number.
fn map_out(
    alloc: Global,
    indices: &[Index],
    start: u32,
    vars: &[Var],
    ports: &[Var],
    k: usize,
    out: &OutArg,
) -> Result<Slice, SourceRefusal>
    requires { start + total (drop k vars.now) ≤ most_words }
    ensures slice { Gives result (map_out indices.now start (slice_get vars.now k)
        (slice_get ports.now k) out.now) }
    ensures few { IfOk result (λ slice. (start + array_size slice.dims)
        + total (drop (k + 1) vars.now) ≤ most_words) }
{
    let arg = match out {
        OutArg::Fresh(port) => return refused(Fault::Wiring, port.at.pos),
        OutArg::Old(arg) => arg,
    };
    let Some(var) = vars.get(k) else {
        return refused(Fault::Wiring, arg.at.pos);
    };
    check_map_out(alloc, indices, var, ports, k, arg)?;
    Ok(slice_of(alloc, indices, start, arg, &var.shape)?)
}

/// The slices of the out arguments of the call at this place, which are the out ports in order.
#[tactic(auto, using(crate::proofs::Slices::slices))]
fn map_outs(
    alloc: Global,
    indices: &[Index],
    call: Pos,
    vars: &[Var],
    ports: &[Var],
    outs: &[OutArg],
) -> Result<List<Slice>, SourceRefusal>
    requires { AreSized vars.now }
    ensures { Gives result (map_outs indices.now call 0 vars.now ports.now outs.now) }
{
    let mut slices = List::new(alloc);
    let mut start = 0;
    for (k, out) in outs.iter().enumerate() {
        let slice = map_out(alloc, indices, start, vars, ports, k, out)?;
        start += array_len(slice.dims.as_slice()) as u32;
        slices.push(slice)?;
    }
    check_end(vars, outs.len(), call)?;
    Ok(slices)
}

/// An in argument that is this in port, in the place of the callee's port of this number.
fn check_map_in(
    alloc: Global,
    indices: &[Index],
    array: &Located,
    ports: &[Var],
    k: usize,
    arg: &Arg,
) -> Result<(), SourceRefusal>
    ensures { Gives result (map_in_rule indices.now array.now (slice_get ports.now k) arg.now) }
{
    let Some(left) = sliced(alloc, arg, &array.shape)? else {
        return refused(Fault::TypeDiffers, arg.at.pos);
    };
    let subs = arg.subs.as_slice();
    check_members(indices, subs)?;
    check_sizes(indices, subs, array.shape.sizes.as_slice())?;
    if !has_shape(ports, k, &left) {
        return refused(Fault::TypeDiffers, arg.at.pos);
    }
    Ok(())
}

/// The slice of an in argument, which is one of the in ports of the table, in the place of the callee's
/// port of this number.
fn map_in(
    alloc: Global,
    indices: &[Index],
    table: &PortTable,
    ports: &[Var],
    k: usize,
    arg: &Arg,
) -> Result<Slice, SourceRefusal>
    ensures { Gives result (map_in indices.now (lookup (bytes_eq arg.now.at.name) table.now)
        (slice_get ports.now k) arg.now) }
{
    let Some(array) = table.get(&arg.at.name) else {
        return refused(Fault::Wiring, arg.at.pos);
    };
    check_map_in(alloc, indices, array, ports, k, arg)?;
    Ok(slice_of(alloc, indices, array.start, arg, &array.shape)?)
}

/// The slices of in arguments, each of which is one of the in ports.
#[tactic(auto, using(crate::proofs::Slices::slices))]
fn map_ins(
    alloc: Global,
    indices: &[Index],
    vars: &[Var],
    ports: &[Var],
    args: &[Arg],
) -> Result<List<Slice>, SourceRefusal>
    requires { AreSized vars.now }
    ensures { Gives result (map_ins indices.now vars.now ports.now args.now) }
{
    let table = locate(alloc, vars)?;
    let mut slices = List::new(alloc);
    for (k, arg) in args.iter().enumerate() {
        slices.push(map_in(alloc, indices, &table, ports, k, arg)?)?;
    }
    Ok(slices)
}

/// The free indices of a map with these out ports, which are those of its first out argument.
fn indices_of(alloc: Global, vars: &[Var], outs: &[OutArg]) -> Result<List<Index>, NoMemory>
    ensures { IfGiven result (λ indices. indices ≡ indices_of vars.now outs.now) }
{
    match (vars, outs) {
        ([var, ..], [OutArg::Old(arg), ..]) => {
            indices_in(alloc, arg.subs.as_slice(), var.shape.sizes.as_slice())
        }
        _ => Ok(List::new(alloc)),
    }
}

/// Returns the cut of the token of a map with these ports, if its call keeps the rules: first those
/// of the outs, then those of the ins.
pub fn cut_of(
    alloc: Global,
    ports: &Ports,
    callee: &Ports,
    call: &Call,
) -> Result<Cut, SourceRefusal>
    requires ins { AreSized ports.now.ins }
    requires outs { AreSized ports.now.outs }
    ensures { Gives result (cut_of ports.now callee.now call.now) }
{
    let indices = indices_of(alloc, ports.outs.as_slice(), call.outs.as_slice())?;
    let indices = indices.as_slice();
    let outs = map_outs(
        alloc,
        indices,
        call.at.pos,
        ports.outs.as_slice(),
        callee.outs.as_slice(),
        call.outs.as_slice(),
    )?;
    let ins = map_ins(
        alloc,
        indices,
        ports.ins.as_slice(),
        callee.ins.as_slice(),
        call.ins.as_slice(),
    )?;
    Ok(Cut {
        first: first_size(indices),
        second: second_size(indices),
        ins,
        outs,
    })
}

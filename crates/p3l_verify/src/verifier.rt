// The verifier.

ghost use Rattle.std.specs.Prelude.{◌≡◌, ◌↔◌, ◌+◌, ◌≤◌, length, slice_get, Some, IfOk, IfSome, IsSome, IsTrue};
ghost use Rattle.p3l_base.specs.Memory.{IfGiven};
ghost use Rattle.p3l_base.specs.Limits.{most_instructions};
ghost use Rattle.p3l_code.specs.Safe.{IsSafe};
ghost use Rattle.p3l_verify.specs.Known.{HasSizes, HasDepths, IsSound};

use crate::instr::{is_local, next_of, pops, pushes, target_of};
use crate::known::{note_at, settle};
use p3l_base::NoMemory;
use p3l_base::limits::{MOST_BUDGET, MOST_INSTRUCTIONS};
use p3l_code::{Code, Instr, SafeCode};
use std::alloc::Global;

/// The code, sealed, if it meets the rules of safe code, and None exactly where it breaks one.
pub fn verify(alloc: Global, code: Code) -> Result<Option<SafeCode>, NoMemory>
    ensures exact { IfGiven result (λ found. IsSome found ↔ IsSafe code) }
    ensures same { IfOk result (λ found. IfSome found (λ safe. safe ≡ code)) }
{
    if has_sizes(&code) && has_depths(alloc, &code)? {
        return Ok(Some(SafeCode::seal(code)));
    }
    Ok(None)
}

// Returns true exactly if the numbers of a code keep the rules.
fn has_sizes(code: &Code) -> bool
    ensures { IsTrue result ↔ HasSizes code.now }
{
    code.instrs.len() <= MOST_INSTRUCTIONS as usize
        && u64::from(code.ins) + u64::from(code.outs) <= u64::from(code.memory)
        && code.memory <= 196_608
        && code.budget >= 1
        && code.budget <= MOST_BUDGET
}

// Tells whether the places of a code have depths that keep the rules: goes over the places once,
// upwards.
fn has_depths(alloc: Global, code: &Code) -> Result<bool, NoMemory>
    requires { length code.now.instrs ≤ most_instructions }
    ensures { IfGiven result (λ holds. IsTrue holds ↔ HasDepths code.now) }
{
    let instrs = code.instrs.as_slice();
    if instrs.is_empty() {
        return Ok(false);
    }
    let mut known = vec![in alloc; None; instrs.len()]?;
    known[0] = Some(0);
    for place in 0..instrs.len() {
        if !visit(code, &mut known, place, instrs[place]) {
            return Ok(false);
        }
    }
    Ok(true)
}

// Settles the depth of a place, and notes the depth after its instruction wherever that leads.
fn visit(code: &Code, known: &mut [Option<u32>], place: usize, instr: Instr) -> bool
    requires few { length code.now.instrs ≤ most_instructions }
    requires at { slice_get code.now.instrs place ≡ Some instr }
    requires sound { IsSound code.now known.old place }
    ensures goes { IsTrue result → IsSound code.now known.new (place + 1) }
    ensures fails { HasDepths code.now → IsTrue result }
{
    let depth = settle(known, place);
    if !is_local(code, place, instr, depth) {
        return false;
    }
    let after = depth - pops(instr) + pushes(instr);
    note_at(known, next_of(place, instr), after) && note_at(known, target_of(instr), after)
}

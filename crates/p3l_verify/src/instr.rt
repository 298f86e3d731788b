// The rules of a single instruction.

ghost use Rattle.std.specs.Prelude.{◌≡◌, ◌↔◌, ◌<◌, Some, IsTrue};
ghost use Rattle.p3l_base.specs.Limits.{most_instructions};
ghost use Rattle.p3l_code.specs.Safe as safe;
ghost use Rattle.p3l_code.specs.declared.instr.Instr.TheVariants.{Turn};
ghost use Rattle.p3l_verify.specs.Known.{HasRoom, IsLocal};

use p3l_base::limits::MOST_STACK;
use p3l_code::{Code, Instr};

/// The count of words that an instruction takes from the stack.
pub fn pops(instr: Instr) -> u32
    ensures { result ≡ safe.pops instr }
{
    match instr {
        Instr::Push(_) | Instr::Load(_) | Instr::Jump(_) | Instr::Turn | Instr::End => 0,
        Instr::Store(_)
        | Instr::LoadAt(_, _)
        | Instr::Unary(_)
        | Instr::JumpZero(_)
        | Instr::JumpNonZero(_) => 1,
        Instr::Step(_) | Instr::StoreAt(_, _) | Instr::Binary(_) => 2,
    }
}

/// The count of words that an instruction puts there.
pub fn pushes(instr: Instr) -> u32
    ensures { result ≡ safe.pushes instr }
{
    match instr {
        Instr::Push(_)
        | Instr::Load(_)
        | Instr::Step(_)
        | Instr::LoadAt(_, _)
        | Instr::Unary(_)
        | Instr::Binary(_) => 1,
        Instr::Store(_)
        | Instr::StoreAt(_, _)
        | Instr::Jump(_)
        | Instr::JumpZero(_)
        | Instr::JumpNonZero(_)
        | Instr::Turn
        | Instr::End => 0,
    }
}

/// The place that an instruction may jump to.
pub fn target_of(instr: Instr) -> Option<u32>
    ensures { result ≡ safe.target_of instr }
{
    match instr {
        Instr::Jump(to) | Instr::JumpZero(to) | Instr::JumpNonZero(to) => Some(to),
        _ => None,
    }
}

/// The next place, if the machine may go on there.
pub fn next_of(place: usize, instr: Instr) -> Option<u32>
    requires { place < most_instructions }
    ensures { result ≡ safe.next_of place (safe.goes_on instr) }
{
    if goes_on(instr) {
        Some(place as u32 + 1)
    } else {
        None
    }
}

// Returns true exactly if the machine may go on at the next place.
fn goes_on(instr: Instr) -> bool
    ensures { result ≡ safe.goes_on instr }
{
    match instr {
        Instr::Jump(_) | Instr::End => false,
        _ => true,
    }
}

/// Returns true exactly if an instruction keeps the rules that speak of it alone, at a place with
/// `depth` words on the stack.
pub fn is_local(code: &Code, place: usize, instr: Instr, depth: u32) -> bool
    ensures { IsTrue result ↔ IsLocal code.now place instr depth }
{
    has_room(instr, depth)
        && is_within(code.memory, instr)
        && ends_at(instr, depth)
        && leads(code.instrs.as_slice(), place, target_of(instr))
}

// Returns true exactly if the stack has the words that an instruction pops, and room for those that
// it pushes.
fn has_room(instr: Instr, depth: u32) -> bool
    ensures { IsTrue result ↔ HasRoom instr depth }
{
    let popped = pops(instr);
    depth >= popped && depth - popped <= MOST_STACK - pushes(instr)
}

// Returns true exactly if the slots that an instruction names lie in the memory.
fn is_within(memory: u32, instr: Instr) -> bool
    ensures { IsTrue result ↔ safe.IsWithin memory instr }
{
    match instr {
        Instr::Load(slot) => slot < memory,
        Instr::Store(slot) => slot < memory,
        Instr::Step(size) => size >= 1,
        Instr::LoadAt(base, size) => is_array(memory, base, size),
        Instr::StoreAt(base, size) => is_array(memory, base, size),
        _ => true,
    }
}

// Returns true exactly if an array has words and lies in the memory.
fn is_array(memory: u32, base: u32, size: u32) -> bool
    ensures { IsTrue result ↔ safe.IsWithin memory (Instr.LoadAt base size) }
{
    u64::from(base) + u64::from(size) <= u64::from(memory) && size >= 1
}

// Returns true exactly if the stack is empty where the code ends.
fn ends_at(instr: Instr, depth: u32) -> bool
    ensures { IsTrue result ↔ safe.EndsAt depth instr }
{
    match instr {
        Instr::End => depth == 0,
        _ => true,
    }
}

// Returns true exactly if a jump leads where it may.
fn leads(instrs: &[Instr], place: usize, to: Option<u32>) -> bool
    ensures { IsTrue result ↔ safe.Leads instrs.now place to }
{
    match to {
        Some(to) => leads_to(instrs, place, to as usize),
        None => true,
    }
}

// Returns true exactly if a jump from one place to another stays in the code, and goes forward or
// to a turn.
fn leads_to(instrs: &[Instr], place: usize, to: usize) -> bool
    ensures { IsTrue result ↔ safe.Leads instrs.now place (Some to) }
{
    to < instrs.len() && (to > place || is_turn(instrs[to]))
}

// Returns true exactly if an instruction is a turn.
fn is_turn(instr: Instr) -> bool
    ensures { IsTrue result ↔ (instr ≡ Turn) }
{
    match instr {
        Instr::Turn => true,
        _ => false,
    }
}

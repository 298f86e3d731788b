// Codes by hand.

use p3l_base::{List, NoMemory, Outcome, TrapKind, Words};
use p3l_code::{Code, Instr, run_code};
use p3l_verify::verify;
use std::alloc::Global;

/// The number of the module that the codes belong to.
pub const HOME: u32 = 7;

/// A code of these instructions, with its numbers of words taken, given and of memory.
pub fn code(
    alloc: Global,
    budget: u32,
    ins: u32,
    outs: u32,
    memory: u32,
    instrs: &[Instr],
) -> Result<Code, NoMemory> {
    Ok(Code {
        budget,
        ins,
        outs,
        memory,
        instrs: List::from_vec(instrs.to_vec(alloc)?),
    })
}

/// Returns what a code makes of words; nothing where it is not safe, or takes another number of
/// words.
pub fn outcome(alloc: Global, code: Code, words: &[i64]) -> Result<Option<Outcome>, NoMemory> {
    let words = Words::from_vec(words.to_vec(alloc)?);
    let Some(safe) = verify(alloc, code)? else {
        return Ok(None);
    };
    if words.len() != safe.code().ins as usize {
        return Ok(None);
    }
    Ok(Some(run_code(alloc, &safe, HOME, &words)?))
}

/// Returns true exactly if an outcome is the words, or the trap of the codes' module.
pub fn is_outcome(outcome: &Option<Outcome>, expected: Result<&[i64], TrapKind>) -> bool {
    match (outcome, expected) {
        (Some(Outcome::Value(words)), Ok(expected)) => words.as_slice() == expected,
        (Some(Outcome::Trapped(trap)), Err(kind)) => trap.kind == kind && trap.module == HOME,
        _ => false,
    }
}

// Codes that break a rule of safe code, one each, and codes that keep them all.

use crate::codes::{code, is_outcome, outcome};
use p3l_ast::{BinOp, UnOp};
use p3l_base::{List, NoMemory, TrapKind};
use p3l_code::{Code, Instr};
use p3l_verify::verify;
use std::alloc::Global;
use std::test::*;

/// A code that takes and gives one word of two.
fn is_safe(alloc: Global, instrs: &[Instr]) -> Result<bool, NoMemory> {
    Ok(verify(alloc, code(alloc, 10, 1, 1, 2, instrs)?)?.is_some())
}

#[test]
fn codes_that_break_a_rule(rt: HostRuntime) -> Result<(), Fail> {
    let broken: [&[Instr]; 15] = [
        // No instruction, and one that goes on after the last place.
        &[],
        &[Instr::Turn],
        // A slot and an array outside the memory, an array without words, a size of 0.
        &[Instr::Load(2), Instr::Store(0), Instr::End],
        &[Instr::Push(0), Instr::Store(2), Instr::End],
        &[
            Instr::Push(0),
            Instr::LoadAt(1, 2),
            Instr::Store(0),
            Instr::End,
        ],
        &[
            Instr::Push(0),
            Instr::LoadAt(1, 0),
            Instr::Store(0),
            Instr::End,
        ],
        &[
            Instr::Push(0),
            Instr::Push(0),
            Instr::Step(0),
            Instr::Store(0),
            Instr::End,
        ],
        // A jump past the code, and one backward to no turn.
        &[Instr::Jump(1)],
        &[Instr::Push(1), Instr::Store(0), Instr::Jump(0)],
        // Two ways that come together with other depths, forward and backward.
        &[
            Instr::Load(0),
            Instr::JumpZero(3),
            Instr::Push(1),
            Instr::End,
        ],
        &[Instr::Turn, Instr::Push(1), Instr::Jump(0)],
        // A place that nothing reaches has no word on the stack.
        &[Instr::End, Instr::Store(0), Instr::End],
        // A word too few, and a word left over.
        &[
            Instr::Push(1),
            Instr::Binary(BinOp::Add),
            Instr::Store(0),
            Instr::End,
        ],
        &[Instr::Unary(UnOp::Neg), Instr::End],
        &[Instr::Push(1), Instr::End],
    ];
    for instrs in broken {
        assert!(rt; !is_safe(rt.alloc(), instrs)?, "{instrs:?}");
    }
    let kept: [&[Instr]; 3] = [
        &[Instr::End],
        &[Instr::Turn, Instr::Jump(0)],
        &[Instr::Load(0), Instr::JumpZero(3), Instr::Turn, Instr::End],
    ];
    for instrs in kept {
        assert!(rt; is_safe(rt.alloc(), instrs)?, "{instrs:?}");
    }
    Ok(())
}

/// A code that pushes words up to this depth and takes them off again.
fn deep(alloc: Global, depth: u32) -> Result<Code, NoMemory> {
    let mut instrs = Vec::new(alloc);
    for _ in 0..depth {
        instrs.push(Instr::Push(3))?;
    }
    for _ in 0..depth {
        instrs.push(Instr::Store(1))?;
    }
    instrs.push(Instr::End)?;
    Ok(Code {
        budget: 1,
        ins: 1,
        outs: 1,
        memory: 2,
        instrs: List::from_vec(instrs),
    })
}

#[test]
fn limits_of_numbers(rt: HostRuntime) -> Result<(), Fail> {
    // Budget, ins, outs, memory, and whether the code is safe.
    let limits: [(u32, u32, u32, u32, bool); 6] = [
        (1, 1, 1, 196_608, true),
        (1, 1, 1, 196_609, false),
        (1, 2, 2, 3, false),
        (0, 1, 1, 2, false),
        (100_000_000, 1, 1, 2, true),
        (100_000_001, 1, 1, 2, false),
    ];
    for (budget, ins, outs, memory, safe) in limits {
        let code = code(rt.alloc(), budget, ins, outs, memory, &[Instr::End])?;
        assert_eq!(rt; verify(rt.alloc(), code)?.is_some(), safe);
    }
    for (depth, safe) in [(1024, true), (1025, false)] {
        let code = deep(rt.alloc(), depth)?;
        assert_eq!(rt; verify(rt.alloc(), code)?.is_some(), safe);
    }
    Ok(())
}

/// Counts its in word down in a loop, and then another, and gives what it counted in both.
#[test]
fn loops_share_a_budget(rt: HostRuntime) -> Result<(), Fail> {
    let count = [
        Instr::Jump(8),
        Instr::Turn,
        Instr::Load(1),
        Instr::Push(1),
        Instr::Binary(BinOp::Add),
        Instr::Store(1),
        Instr::Load(1),
        Instr::Store(2),
        Instr::Load(1),
        Instr::Load(0),
        Instr::Binary(BinOp::Lt),
        Instr::JumpNonZero(1),
        Instr::Jump(18),
        Instr::Turn,
        Instr::Load(2),
        Instr::Push(1),
        Instr::Binary(BinOp::Sub),
        Instr::Store(2),
        Instr::Load(2),
        Instr::JumpNonZero(13),
        Instr::End,
    ];
    let three = code(rt.alloc(), 6, 1, 1, 3, &count)?;
    assert!(rt; is_outcome(&outcome(rt.alloc(), three, &[3])?, Ok(&[3])));
    let four = code(rt.alloc(), 6, 1, 1, 3, &count)?;
    assert!(rt; is_outcome(&outcome(rt.alloc(), four, &[4])?, Err(TrapKind::Budget)));
    Ok(())
}

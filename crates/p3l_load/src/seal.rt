// Codes are verified and sealed.

ghost use Rattle.std.specs.Prelude.{◌≡◌, ◌<◌, ◌^◌, length, IfOk, IfErr};
ghost use Rattle.p3l_base.specs.Memory.{IfGiven};
ghost use Rattle.std.specs.List.{All};
ghost use Rattle.p3l_code.specs.Safe.{IsSafe};
ghost use Rattle.p3l_load.specs.Load.{IsUnsafe};

use crate::loaded::LoadRefusal;
use p3l_base::{List, NoMemory};
use p3l_code::{Code, SafeCode};
use p3l_verify::verify;
use std::alloc::Global;

// A copy of a code.
fn copy_of(alloc: Global, code: &Code) -> Result<Code, NoMemory>
    ensures { IfGiven result (λ copy. copy ≡ code.now) }
{
    let instrs = List::from_vec(code.instrs.as_slice().to_vec(alloc)?);
    Ok(Code {
        budget: code.budget,
        ins: code.ins,
        outs: code.outs,
        memory: code.memory,
        instrs,
    })
}

/// Seals codes, or gives the number of the first that isn't safe.
pub fn seal_codes(alloc: Global, codes: &[Code]) -> Result<List<SafeCode>, LoadRefusal>
    requires { length codes.now < 2 ^ 32 }
    ensures same { IfOk result (λ safe. safe ≡ codes.now) }
    ensures safe { IfOk result (λ safe. All IsSafe codes.now) }
    ensures refused { IfErr result (IsUnsafe codes.now) }
{
    let mut safe = List::new(alloc);
    let mut number: u32 = 0;
    for code in codes {
        match verify(alloc, copy_of(alloc, code)?)? {
            Some(code) => safe.push(code)?,
            None => return Err(LoadRefusal::CodeUnsafe(number)),
        }
        number += 1;
    }
    Ok(safe)
}

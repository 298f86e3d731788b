// The operands of instructions are numbers of their types: seen by looking at them.

ghost use Rattle.std.specs.List.{All};
ghost use Rattle.p3l_load.specs.Written.{HasAllOperands, HasOperands};

use p3l_code::{Code, Instr};

// Looks at an instruction.
fn look_at(instr: Instr)
    ensures { HasOperands instr }
{
    match instr {
        Instr::Push(_number) => {}
        Instr::Load(_slot) | Instr::Store(_slot) => {}
        Instr::Step(_size) => {}
        Instr::LoadAt(_base, _size) | Instr::StoreAt(_base, _size) => {}
        Instr::Unary(_) | Instr::Binary(_) => {}
        Instr::Jump(_to) | Instr::JumpZero(_to) | Instr::JumpNonZero(_to) => {}
        Instr::Turn | Instr::End => {}
    }
}

// Looks at the instructions of a code.
fn look_through(code: &Code)
    ensures { HasAllOperands code.now }
{
    for instr in code.instrs.as_slice() {
        look_at(*instr);
    }
}

/// Looks at each instruction of codes: the operands are numbers of their types.
pub fn have_operands(codes: &[Code])
    ensures { All HasAllOperands codes.now }
{
    for code in codes {
        look_through(code);
    }
}

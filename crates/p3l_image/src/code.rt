// Instructions and codes as fields.

ghost use Rattle.std.specs.Prelude.{◌≡◌, ◌++◌};
ghost use Rattle.p3l_base.specs.Memory.{OnGiven};
ghost use Rattle.p3l_format.specs.Format.{Gives};
ghost use Rattle.p3l_format.specs.Numbers.{one_of};
ghost use Rattle.p3l_image.specs.Instr.{unary_number, unary_format, binary_number, binary_format, instr_kinds, instr_number, kind_of, operands, instr_format, code_format};
ghost use Rattle.p3l_image.specs.laws.Instr.{lawful_instr, lawful_code};

use crate::instr::InstrKind;
use p3l_ast::{BinOp, UnOp};
use p3l_base::NoMemory;
use p3l_code::{Code, Instr};
use p3l_format::{
    Field, ListField, ReadError, read_i64, read_one_of, read_u32, write_i64, write_u8, write_u32,
};
use std::alloc::Global;

const UNARIES: [UnOp; 3] = [UnOp::Neg, UnOp::Not, UnOp::Flip];

const BINARIES: [BinOp; 18] = [
    BinOp::Or,
    BinOp::And,
    BinOp::BitOr,
    BinOp::BitXor,
    BinOp::BitAnd,
    BinOp::Eq,
    BinOp::Ne,
    BinOp::Lt,
    BinOp::Le,
    BinOp::Gt,
    BinOp::Ge,
    BinOp::Shl,
    BinOp::Shr,
    BinOp::Add,
    BinOp::Sub,
    BinOp::Mul,
    BinOp::Div,
    BinOp::Rem,
];

const KINDS: [InstrKind; 13] = [
    InstrKind::Push,
    InstrKind::Load,
    InstrKind::Store,
    InstrKind::Step,
    InstrKind::LoadAt,
    InstrKind::StoreAt,
    InstrKind::Unary,
    InstrKind::Binary,
    InstrKind::Jump,
    InstrKind::JumpZero,
    InstrKind::JumpNonZero,
    InstrKind::Turn,
    InstrKind::End,
];

/// An instruction: its number, and its operands.
#[derive(Clone, Copy, Drop)]
pub struct InstrField;

impl Field for InstrField {
    type Value = Instr;

    ghost format = { λ _. instr_format };

    ghost lawful = { λ _. lawful_instr };

    #[tactic(auto, unfolding(crate::specs::Instr::instr_format, p3l_format::specs::Format::tagged))]
    fn read<'a>(&self, _alloc: Global, bytes: &'a [u8]) -> Result<(Instr, &'a [u8]), ReadError> {
        let (kind, rest) = read_kind(bytes)?;
        read_operands(kind, rest)
    }

    #[tactic(auto, unfolding(crate::specs::Instr::instr_format, p3l_format::specs::Format::tagged))]
    fn write(&self, value: &Instr, out: &mut Vec<u8>) -> Result<(), NoMemory> {
        write_kind(kind_of(*value), out)?;
        write_operands(*value, out)
    }
}

// Returns which instruction it is.
fn kind_of(instr: Instr) -> InstrKind
    ensures { result ≡ kind_of instr }
{
    match instr {
        Instr::Push(_) => InstrKind::Push,
        Instr::Load(_) => InstrKind::Load,
        Instr::Store(_) => InstrKind::Store,
        Instr::Step(_) => InstrKind::Step,
        Instr::LoadAt(_, _) => InstrKind::LoadAt,
        Instr::StoreAt(_, _) => InstrKind::StoreAt,
        Instr::Unary(_) => InstrKind::Unary,
        Instr::Binary(_) => InstrKind::Binary,
        Instr::Jump(_) => InstrKind::Jump,
        Instr::JumpZero(_) => InstrKind::JumpZero,
        Instr::JumpNonZero(_) => InstrKind::JumpNonZero,
        Instr::Turn => InstrKind::Turn,
        Instr::End => InstrKind::End,
    }
}

// The operands of an instruction of this kind.
#[tactic(auto, unfolding(crate::specs::Instr::operands, p3l_format::specs::Format::pair, p3l_format::specs::Format::as_form, p3l_format::specs::Format::nothing))]
fn read_operands(kind: InstrKind, bytes: &[u8]) -> Result<(Instr, &[u8]), ReadError>
    ensures { Gives (λ x. (x.0, x.1.now)) result ((operands kind).read bytes.now) }
{
    match kind {
        InstrKind::Push => {
            let (operand, rest) = read_i64(bytes)?;
            Ok((Instr::Push(operand), rest))
        }
        InstrKind::Load => {
            let (operand, rest) = read_u32(bytes)?;
            Ok((Instr::Load(operand), rest))
        }
        InstrKind::Store => {
            let (operand, rest) = read_u32(bytes)?;
            Ok((Instr::Store(operand), rest))
        }
        InstrKind::Step => {
            let (operand, rest) = read_u32(bytes)?;
            Ok((Instr::Step(operand), rest))
        }
        InstrKind::LoadAt => {
            let (base, rest) = read_u32(bytes)?;
            let (length, rest) = read_u32(rest)?;
            Ok((Instr::LoadAt(base, length), rest))
        }
        InstrKind::StoreAt => {
            let (base, rest) = read_u32(bytes)?;
            let (length, rest) = read_u32(rest)?;
            Ok((Instr::StoreAt(base, length), rest))
        }
        InstrKind::Unary => {
            let (operand, rest) = read_unary(bytes)?;
            Ok((Instr::Unary(operand), rest))
        }
        InstrKind::Binary => {
            let (operand, rest) = read_binary(bytes)?;
            Ok((Instr::Binary(operand), rest))
        }
        InstrKind::Jump => {
            let (operand, rest) = read_u32(bytes)?;
            Ok((Instr::Jump(operand), rest))
        }
        InstrKind::JumpZero => {
            let (operand, rest) = read_u32(bytes)?;
            Ok((Instr::JumpZero(operand), rest))
        }
        InstrKind::JumpNonZero => {
            let (operand, rest) = read_u32(bytes)?;
            Ok((Instr::JumpNonZero(operand), rest))
        }
        InstrKind::Turn => Ok((Instr::Turn, bytes)),
        InstrKind::End => Ok((Instr::End, bytes)),
    }
}

// Puts the operands of an instruction after others.
#[tactic(auto, unfolding(crate::specs::Instr::operands, p3l_format::specs::Format::pair, p3l_format::specs::Format::as_form, p3l_format::specs::Format::nothing))]
fn write_operands(instr: Instr, out: &mut Vec<u8>) -> Result<(), NoMemory>
    ensures { OnGiven result (out.new.items
        ≡ out.old.items ++ (operands (kind_of instr)).spell instr) }
{
    match instr {
        Instr::Push(operand) => write_i64(operand, out),
        Instr::Load(operand) => write_u32(operand, out),
        Instr::Store(operand) => write_u32(operand, out),
        Instr::Step(operand) => write_u32(operand, out),
        Instr::LoadAt(base, length) => {
            write_u32(base, out)?;
            write_u32(length, out)
        }
        Instr::StoreAt(base, length) => {
            write_u32(base, out)?;
            write_u32(length, out)
        }
        Instr::Unary(operand) => write_unary(operand, out),
        Instr::Binary(operand) => write_binary(operand, out),
        Instr::Jump(operand) => write_u32(operand, out),
        Instr::JumpZero(operand) => write_u32(operand, out),
        Instr::JumpNonZero(operand) => write_u32(operand, out),
        Instr::Turn => Ok(()),
        Instr::End => Ok(()),
    }
}

// Puts the byte of a value after others.
#[tactic(auto, unfolding(p3l_format::specs::Numbers::one_of, p3l_format::specs::Numbers::u8_format, p3l_format::specs::Format::coded))]
fn write_unary(value: UnOp, out: &mut Vec<u8>) -> Result<(), NoMemory>
    ensures { OnGiven result (out.new.items ≡ out.old.items ++ unary_format.spell value) }
{
    write_u8(unary_number(value), out)
}

// The byte that stands for a value.
fn unary_number(value: UnOp) -> u8
    ensures { result ≡ unary_number value }
{
    match value {
        UnOp::Neg => 0,
        UnOp::Not => 1,
        UnOp::Flip => 2,
    }
}

// Puts the byte of a value after others.
#[tactic(auto, unfolding(p3l_format::specs::Numbers::one_of, p3l_format::specs::Numbers::u8_format, p3l_format::specs::Format::coded))]
fn write_binary(value: BinOp, out: &mut Vec<u8>) -> Result<(), NoMemory>
    ensures { OnGiven result (out.new.items ≡ out.old.items ++ binary_format.spell value) }
{
    write_u8(binary_number(value), out)
}

// The byte that stands for a value.
fn binary_number(value: BinOp) -> u8
    ensures { result ≡ binary_number value }
{
    match value {
        BinOp::Or => 0,
        BinOp::And => 1,
        BinOp::BitOr => 2,
        BinOp::BitXor => 3,
        BinOp::BitAnd => 4,
        BinOp::Eq => 5,
        BinOp::Ne => 6,
        BinOp::Lt => 7,
        BinOp::Le => 8,
        BinOp::Gt => 9,
        BinOp::Ge => 10,
        BinOp::Shl => 11,
        BinOp::Shr => 12,
        BinOp::Add => 13,
        BinOp::Sub => 14,
        BinOp::Mul => 15,
        BinOp::Div => 16,
        BinOp::Rem => 17,
    }
}

// Puts the byte of a value after others.
#[tactic(auto, unfolding(p3l_format::specs::Numbers::one_of, p3l_format::specs::Numbers::u8_format, p3l_format::specs::Format::coded))]
fn write_kind(value: InstrKind, out: &mut Vec<u8>) -> Result<(), NoMemory>
    ensures { OnGiven result (out.new.items
        ≡ out.old.items ++ (one_of instr_kinds instr_number).spell value) }
{
    write_u8(kind_number(value), out)
}

// The byte that stands for a value.
fn kind_number(value: InstrKind) -> u8
    ensures { result ≡ instr_number value }
{
    match value {
        InstrKind::Push => 0,
        InstrKind::Load => 1,
        InstrKind::Store => 2,
        InstrKind::Step => 3,
        InstrKind::LoadAt => 4,
        InstrKind::StoreAt => 5,
        InstrKind::Unary => 6,
        InstrKind::Binary => 7,
        InstrKind::Jump => 8,
        InstrKind::JumpZero => 9,
        InstrKind::JumpNonZero => 10,
        InstrKind::Turn => 11,
        InstrKind::End => 12,
    }
}

// The kind at the front, and what is after it.
fn read_kind(bytes: &[u8]) -> Result<(InstrKind, &[u8]), ReadError>
    ensures { Gives (λ x. (x.0, x.1.now)) result ((one_of instr_kinds instr_number).read bytes.now) }
{
    read_one_of(&KINDS, bytes)
}

// The operator at the front, and what is after it.
fn read_unary(bytes: &[u8]) -> Result<(UnOp, &[u8]), ReadError>
    ensures { Gives (λ x. (x.0, x.1.now)) result (unary_format.read bytes.now) }
{
    read_one_of(&UNARIES, bytes)
}

// The operator at the front, and what is after it.
fn read_binary(bytes: &[u8]) -> Result<(BinOp, &[u8]), ReadError>
    ensures { Gives (λ x. (x.0, x.1.now)) result (binary_format.read bytes.now) }
{
    read_one_of(&BINARIES, bytes)
}

const INSTRS: ListField<InstrField> = ListField {
    low: 0,
    high: 4_294_967_295,
    item: InstrField,
};

/// A code: its numbers and its instructions.
#[derive(Clone, Copy, Drop)]
pub struct CodeField;

impl Field for CodeField {
    type Value = Code;

    ghost format = { λ _. code_format };

    ghost lawful = { λ _. lawful_code };

    #[tactic(auto, unfolding(crate::specs::Instr::code_format, p3l_format::specs::Format::pair, p3l_format::specs::Format::as_form))]
    fn read<'a>(&self, alloc: Global, bytes: &'a [u8]) -> Result<(Code, &'a [u8]), ReadError> {
        let (budget, rest) = read_u32(bytes)?;
        let (ins, rest) = read_u32(rest)?;
        let (outs, rest) = read_u32(rest)?;
        let (memory, rest) = read_u32(rest)?;
        let (instrs, rest) = INSTRS.read(alloc, rest)?;
        Ok((
            Code {
                budget,
                ins,
                outs,
                memory,
                instrs,
            },
            rest,
        ))
    }

    #[tactic(auto, unfolding(crate::specs::Instr::code_format, p3l_format::specs::Format::pair, p3l_format::specs::Format::as_form))]
    fn write(&self, value: &Code, out: &mut Vec<u8>) -> Result<(), NoMemory> {
        write_u32(value.budget, out)?;
        write_u32(value.ins, out)?;
        write_u32(value.outs, out)?;
        write_u32(value.memory, out)?;
        INSTRS.write(&value.instrs, out)
    }
}

/// The codes of the `seq` modules.
pub const CODES: ListField<CodeField> = ListField {
    low: 0,
    high: 4_294_967_295,
    item: CodeField,
};

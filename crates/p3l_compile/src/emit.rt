// The code of expressions and statements, put after the code so far.

ghost use Rattle.std.specs.Prelude.{◌≡◌, ℕ, pos, ◌+◌, ◌<◌, ◌≤◌, [], ◌∷◌, ◌++◌, length, slice_index, OnOk};
ghost use Rattle.p3l_base.specs.Memory.{OnGiven};
ghost use Rattle.p3l_base.specs.Limits.{most_instructions};
ghost use Rattle.p3l_ast.specs.Tree.{phrase, phrases, read, unary, binary};
ghost use Rattle.p3l_compile.specs.Scope.{found, constant_of};
ghost use Rattle.p3l_compile.specs.Phrase.{phrase_size, index_size, skip_code, decided, short_code, scalar_code, element_code, sizes_in, phrase_code, index_code};

use crate::scope::Scope;
use p3l_ast::{BinOp, Expr, Target, UnOp};
use p3l_base::{Name, NoMemory};
use p3l_code::Instr;

/// Puts the code of an expression after the code so far.
#[cycle(expression)]
pub fn emit_expr(scope: &Scope<'_>, code: &mut Vec<Instr>, expr: &Expr) -> Result<(), NoMemory>
    requires { length code.old.items + phrase_size (phrase expr.now) ≤ most_instructions }
    ensures code { OnGiven result (code.new.items
        ≡ code.old.items ++ phrase_code scope.now (length code.old.items) (phrase expr.now)) }
    ensures size { OnOk result (length code.new.items
        ≡ length code.old.items + phrase_size (phrase expr.now)) }
{
    match expr {
        Expr::Number(number) => put(code, Instr::Push(*number)),
        Expr::Read(target) => emit_read(scope, code, target),
        Expr::Unary(op, operand) => emit_unary(scope, code, *op, operand),
        Expr::Binary(op, left, right) => emit_binary(scope, code, *op, left, right),
    }
}

// Puts the code of an operator before its operand after the code so far.
#[cycle(expression)]
fn emit_unary(
    scope: &Scope<'_>,
    code: &mut Vec<Instr>,
    op: UnOp,
    operand: &Expr,
) -> Result<(), NoMemory>
    requires { length code.old.items + phrase_size (unary op (phrase operand.now)) ≤ most_instructions }
    ensures code { OnGiven result (code.new.items
        ≡ code.old.items
        ++ phrase_code scope.now (length code.old.items) (unary op (phrase operand.now))) }
    ensures size { OnOk result (length code.new.items
        ≡ length code.old.items + phrase_size (unary op (phrase operand.now))) }
{
    emit_expr(scope, code, operand)?;
    put(code, Instr::Unary(op))
}

// Puts the code of an operator between its operands after the code so far.
#[cycle(expression)]
fn emit_binary(
    scope: &Scope<'_>,
    code: &mut Vec<Instr>,
    op: BinOp,
    left: &Expr,
    right: &Expr,
) -> Result<(), NoMemory>
    requires { length code.old.items + phrase_size (binary op (phrase left.now) (phrase right.now))
        ≤ most_instructions }
    ensures code { OnGiven result (code.new.items
        ≡ code.old.items
        ++ phrase_code scope.now (length code.old.items)
        (binary op (phrase left.now) (phrase right.now))) }
    ensures size { OnOk result (length code.new.items
        ≡ length code.old.items + phrase_size (binary op (phrase left.now) (phrase right.now))) }
{
    if op == BinOp::Or {
        return emit_short(scope, code, BinOp::Or, left, right);
    }
    if op == BinOp::And {
        return emit_short(scope, code, BinOp::And, left, right);
    }
    emit_expr(scope, code, left)?;
    emit_expr(scope, code, right)?;
    put(code, Instr::Binary(op))
}

// Puts the code of `left || right` or `left && right` after the code so far.
#[cycle(expression)]
fn emit_short(
    scope: &Scope<'_>,
    code: &mut Vec<Instr>,
    op: BinOp,
    left: &Expr,
    right: &Expr,
) -> Result<(), NoMemory>
    requires { length code.old.items + phrase_size (phrase left.now)
        + phrase_size (phrase right.now) + 5 ≤ most_instructions }
    ensures code { OnGiven result (code.new.items ≡ code.old.items
        ++ short_code op (length code.old.items)
        (phrase_code scope.now (length code.old.items) (phrase left.now))
        (phrase_size (phrase left.now))
        (λ p. phrase_code scope.now p (phrase right.now)) (phrase_size (phrase right.now))) }
    ensures size { OnOk result (length code.new.items
        ≡ length code.old.items + (phrase_size (phrase left.now) + phrase_size (phrase right.now)
        + 5)) }
{
    emit_expr(scope, code, left)?;
    let jump = code.len();
    put(code, skip(op, 0))?;
    emit_expr(scope, code, right)?;
    put_truth(code, decided(op))?;
    code[jump] = skip(op, place(code) - 1);
    Ok(())
}

// The jump past a right operand that the left one of `||` or `&&` makes needless.
fn skip(op: BinOp, to: u32) -> Instr
    ensures { result ≡ skip_code op to }
{
    match op {
        BinOp::Or => Instr::JumpNonZero(to),
        _ => Instr::JumpZero(to),
    }
}

// The word of `||` or `&&` where its left operand decides.
fn decided(op: BinOp) -> i64
    ensures { result ≡ decided op }
{
    match op {
        BinOp::Or => 1,
        _ => 0,
    }
}

// Puts the code that reads a variable, an element or a constant after the code so far.
#[cycle(expression)]
fn emit_read(scope: &Scope<'_>, code: &mut Vec<Instr>, target: &Target) -> Result<(), NoMemory>
    requires { length code.old.items + phrase_size (read target.now.at (phrases
        target.now.index.items)) ≤ most_instructions }
    ensures code { OnGiven result (code.new.items
        ≡ code.old.items
        ++ phrase_code scope.now (length code.old.items)
        (read target.now.at (phrases target.now.index.items))) }
    ensures size { OnOk result (length code.new.items
        ≡ length code.old.items + phrase_size (read target.now.at (phrases target.now.index.items))) }
{
    if target.index.is_empty() {
        return put(code, scalar(scope, &target.at.name));
    }
    if target.index.len() == 1 {
        return emit_only(scope, code, &target.at.name, &target.index[0]);
    }
    put(code, Instr::Push(0))?;
    emit_index(scope, code, target)?;
    put(code, element(scope, &target.at.name))
}

// Puts the code that reads an element by its one index, which is tested as it is read, after the
// code so far.
#[cycle(expression)]
fn emit_only(
    scope: &Scope<'_>,
    code: &mut Vec<Instr>,
    name: &Name,
    index: &Expr,
) -> Result<(), NoMemory>
    requires { length code.old.items + phrase_size (phrase index.now) + 1 ≤ most_instructions }
    ensures code { OnGiven result (code.new.items ≡ code.old.items
        ++ (phrase_code scope.now (length code.old.items) (phrase index.now)
        ++ element_code (found scope.now name.now) ∷ [])) }
    ensures size { OnOk result (length code.new.items
        ≡ length code.old.items + (phrase_size (phrase index.now) + 1)) }
{
    emit_expr(scope, code, index)?;
    put(code, element(scope, name))
}

// Puts the code of a target's indices after the code so far, each with the test against its size.
#[cycle(expression)]
pub fn emit_index(scope: &Scope<'_>, code: &mut Vec<Instr>, target: &Target) -> Result<(), NoMemory>
    requires { length code.old.items + index_size (phrases target.now.index.items) ≤ most_instructions }
    ensures code { OnGiven result (code.new.items
        ≡ code.old.items
        ++ index_code scope.now (length code.old.items)
        (sizes_in (found scope.now target.now.at.name)) (phrases target.now.index.items)) }
    ensures size { OnOk result (length code.new.items
        ≡ length code.old.items + index_size (phrases target.now.index.items)) }
{
    let sizes = scope.sizes(&target.at.name);
    for (dimension, index) in target.index.iter().enumerate() {
        emit_expr(scope, code, index)?;
        put(code, Instr::Step(size_at(sizes, dimension)))?;
    }
    Ok(())
}

// The size of a dimension, and 0 where there is none.
fn size_at(sizes: &[u32], dimension: usize) -> u32
    ensures { result ≡ slice_index sizes.now dimension }
{
    sizes.get(dimension).copied().unwrap_or(0)
}

// The instruction that reads a scalar or a constant.
fn scalar(scope: &Scope<'_>, name: &Name) -> Instr
    ensures { result ≡ scalar_code (found scope.now name.now) (constant_of scope.now name.now) }
{
    match scope.slot(name) {
        Some(slot) => Instr::Load(slot.base),
        None => Instr::Push(scope.constant(name)),
    }
}

// The instruction that reads the element whose place is on the stack.
fn element(scope: &Scope<'_>, name: &Name) -> Instr
    ensures { result ≡ element_code (found scope.now name.now) }
{
    match scope.slot(name) {
        Some(slot) => Instr::LoadAt(slot.base, slot.words),
        None => Instr::LoadAt(0, 1),
    }
}

// Puts the code after a right operand of `||` or `&&`: its truth, and a jump past the other way,
// which gives a number.
fn put_truth(code: &mut Vec<Instr>, other: i64) -> Result<(), NoMemory>
    requires { length code.old.items + 4 ≤ most_instructions }
    ensures code { OnGiven result (code.new.items ≡ code.old.items
        ++ (Instr.Push (pos 0) ∷ Instr.Binary BinOp.Ne ∷ Instr.Jump (length code.old.items + 4)
        ∷ Instr.Push other ∷ [])) }
    ensures size { OnOk result (length code.new.items ≡ length code.old.items + 4) }
{
    put(code, Instr::Push(0))?;
    put(code, Instr::Binary(BinOp::Ne))?;
    put(code, Instr::Jump(place(code) + 2))?;
    put(code, Instr::Push(other))
}

// The place after the code so far.
pub fn place(code: &Vec<Instr>) -> u32
    requires { length code.now.items ≤ most_instructions }
    ensures { result ≡ length code.now.items }
{
    code.len() as u32
}

// Puts one more instruction after the code so far.
pub fn put(code: &mut Vec<Instr>, instr: Instr) -> Result<(), NoMemory>
    ensures code { OnGiven result (code.new.items ≡ code.old.items ++ instr ∷ []) }
    ensures size { OnOk result (length code.new.items ≡ length code.old.items + 1) }
{
    code.push(instr)?;
    Ok(())
}

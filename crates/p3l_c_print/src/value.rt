// Values of expressions as texts of C.

ghost use Rattle.std.specs.Prelude.{◌≡◌, ◌++◌, ◌+◌, ◌<◌, IfOk, string_bytes};
ghost use Rattle.p3l_base.specs.Memory.{IfGiven, OnGiven};
ghost use Rattle.p3l_c_print.specs.Line.{set_line};
ghost use Rattle.p3l_c_print.specs.Text.{temp_text};
ghost use Rattle.p3l_c_print.specs.Value.{signed_of, unsigned_of, test_of, number_value, test_value, kept, kept_line, applied, over, compared, computed, joined, decided, truth_line};

use crate::count::sum;
use crate::operator::sign_of;
use crate::text::Text;
use p3l_ast::{BinOp, UnOp};
use p3l_base::NoMemory;
use std::alloc::Global;

/// The value of an expression: its text, which is a test or else a number, the temp after its own,
/// and how deep it nests.
#[derive(Drop)]
pub struct Value {
    pub text: Text,
    pub is_test: bool,
    pub after: u64,
    pub height: u32,
}

/// The temps of indices in brackets, and the temp after them.
#[derive(Drop)]
pub struct Spots {
    pub text: Text,
    pub after: u64,
}

/// The lines of statements, and the number of their temps.
#[derive(Drop)]
pub struct Block {
    pub text: Text,
    pub temps: u64,
}

/// A number.
pub fn number_value(text: Text, after: u64, height: u32) -> Value
    ensures { result ≡ number_value text after height }
{
    Value {
        text,
        is_test: false,
        after,
        height,
    }
}

/// A test.
fn test_value(text: Text, after: u64, height: u32) -> Value
    ensures { result ≡ test_value text after height }
{
    Value {
        text,
        is_test: true,
        after,
        height,
    }
}

/// The name of a temp.
pub fn temp_text(alloc: Global, temp: u64) -> Result<Text, NoMemory>
    ensures { IfGiven result (λ text. text ≡ temp_text temp) }
{
    Ok(Text::of(format!(in alloc; "t{temp}")?))
}

/// A value as an `int64_t`.
#[tactic(auto, unfolding(crate::specs::Value::signed_of))]
pub fn signed_of(alloc: Global, value: &Value) -> Result<Text, NoMemory>
    ensures { IfGiven result (λ text. text ≡ signed_of value.now) }
{
    let text = value.text.as_str();
    if value.is_test {
        return Ok(Text::of(format!(in alloc; "(int64_t){text}")?));
    }
    Ok(Text::of(String::from_str(alloc, text)?))
}

/// A value as a `uint64_t`.
#[tactic(auto, unfolding(crate::specs::Value::unsigned_of))]
fn unsigned_of(alloc: Global, value: &Value) -> Result<Text, NoMemory>
    ensures { IfGiven result (λ text. text ≡ unsigned_of value.now) }
{
    let signed = signed_of(alloc, value)?;
    let text = signed.as_str();
    Ok(Text::of(format!(in alloc; "((uint64_t){text})")?))
}

/// A value as a test.
#[tactic(auto, unfolding(crate::specs::Value::test_of))]
pub fn test_of(alloc: Global, value: &Value) -> Result<Text, NoMemory>
    ensures { IfGiven result (λ text. text ≡ test_of value.now) }
{
    let text = value.text.as_str();
    if value.is_test {
        return Ok(Text::of(String::from_str(alloc, text)?));
    }
    Ok(Text::of(format!(in alloc; "({text} != INT64_C(0))")?))
}

/// Puts an assignment after a text.
#[tactic(auto, unfolding(crate::specs::Line::set_line))]
pub fn put_set(
    alloc: Global,
    out: &mut String,
    margin: &str,
    place: &str,
    value: &str,
) -> Result<(), NoMemory>
    ensures { OnGiven result (string_bytes out.new
        ≡ string_bytes out.old ++ set_line margin.now place.now value.now) }
{
    let line = format!(in alloc; "{margin}{place} = {value};\n")?;
    out.push_str(line.as_str())?;
    Ok(())
}

/// Puts an assignment of a value to a temp after a text.
pub fn put_temp(
    alloc: Global,
    out: &mut String,
    margin: &str,
    temp: u64,
    value: &Value,
) -> Result<(), NoMemory>
    ensures { OnGiven result (string_bytes out.new
        ≡ string_bytes out.old ++ set_line margin.now (temp_text temp) (signed_of value.now)) }
{
    let place = temp_text(alloc, temp)?;
    let signed = signed_of(alloc, value)?;
    put_set(alloc, out, margin, place.as_str(), signed.as_str())
}

/// Puts an assignment of a value's truth to a temp after a text.
pub fn put_truth(
    alloc: Global,
    out: &mut String,
    margin: &str,
    temp: u64,
    value: &Value,
) -> Result<(), NoMemory>
    ensures { OnGiven result (string_bytes out.new
        ≡ string_bytes out.old ++ truth_line margin.now temp value.now) }
{
    let place = temp_text(alloc, temp)?;
    let test = test_of(alloc, value)?;
    let text = test.as_str();
    let truth = format!(in alloc; "(int64_t){text}")?;
    put_set(alloc, out, margin, place.as_str(), truth.as_str())
}

/// An operand, which is first kept in a temp if it nests deep.
pub fn kept(alloc: Global, out: &mut String, margin: &str, value: Value) -> Result<Value, NoMemory>
    ensures lines { OnGiven result (string_bytes out.new
        ≡ string_bytes out.old ++ kept_line margin.now value) }
    ensures value { IfGiven result (λ it. it ≡ kept value) }
    ensures small { IfOk result (λ it. it.height < 16) }
{
    if value.height < 16 {
        return Ok(value);
    }
    put_temp(alloc, out, margin, value.after, &value)?;
    let temp = temp_text(alloc, value.after)?;
    let after = sum(alloc, value.after, 1)?;
    Ok(number_value(temp, after, 0))
}

/// An operator before its operand.
pub fn applied(alloc: Global, op: UnOp, value: &Value) -> Result<Value, NoMemory>
    requires { value.now.height < 16 }
    ensures { IfGiven result (λ it. it ≡ applied op value.now) }
{
    match op {
        UnOp::Neg => negated(alloc, value),
        UnOp::Not => refuted(alloc, value),
        UnOp::Flip => flipped(alloc, value),
    }
}

fn negated(alloc: Global, value: &Value) -> Result<Value, NoMemory>
    requires { value.now.height < 16 }
    ensures { IfGiven result (λ it. it ≡ applied UnOp.Neg value.now) }
{
    let operand = unsigned_of(alloc, value)?;
    let text = operand.as_str();
    let whole = format!(in alloc; "p3l_signed((UINT64_C(0)) - {text})")?;
    Ok(number_value(Text::of(whole), value.after, value.height + 1))
}

fn refuted(alloc: Global, value: &Value) -> Result<Value, NoMemory>
    requires { value.now.height < 16 }
    ensures { IfGiven result (λ it. it ≡ applied UnOp.Not value.now) }
{
    let operand = test_of(alloc, value)?;
    let text = operand.as_str();
    let whole = format!(in alloc; "(!{text})")?;
    Ok(test_value(Text::of(whole), value.after, value.height + 1))
}

fn flipped(alloc: Global, value: &Value) -> Result<Value, NoMemory>
    requires { value.now.height < 16 }
    ensures { IfGiven result (λ it. it ≡ applied UnOp.Flip value.now) }
{
    let operand = unsigned_of(alloc, value)?;
    let text = operand.as_str();
    let whole = format!(in alloc; "p3l_signed(~{text})")?;
    Ok(number_value(Text::of(whole), value.after, value.height + 1))
}

/// The height over operands.
pub fn over(left: &Value, right: &Value) -> u32
    requires left { left.now.height < 16 }
    requires right { right.now.height < 16 }
    ensures { result ≡ over left.now right.now }
{
    u32::max(left.height, right.height) + 1
}

/// A comparison.
#[tactic(auto, unfolding(crate::specs::Text::between))]
pub fn compared(alloc: Global, op: BinOp, left: &Value, right: &Value) -> Result<Value, NoMemory>
    requires left { left.now.height < 16 }
    requires right { right.now.height < 16 }
    ensures { IfGiven result (λ it. it ≡ compared op left.now right.now) }
{
    let one = signed_of(alloc, left)?;
    let two = signed_of(alloc, right)?;
    let (a, sign, b) = (one.as_str(), sign_of(op), two.as_str());
    let whole = format!(in alloc; "({a}{sign}{b})")?;
    Ok(test_value(Text::of(whole), right.after, over(left, right)))
}

/// An operator of words that wrap.
pub fn computed(alloc: Global, op: BinOp, left: &Value, right: &Value) -> Result<Value, NoMemory>
    requires left { left.now.height < 16 }
    requires right { right.now.height < 16 }
    ensures { IfGiven result (λ it. it ≡ computed op left.now right.now) }
{
    let one = unsigned_of(alloc, left)?;
    let two = unsigned_of(alloc, right)?;
    let (a, sign, b) = (one.as_str(), sign_of(op), two.as_str());
    let whole = format!(in alloc; "p3l_signed({a}{sign}{b})")?;
    Ok(number_value(Text::of(whole), right.after, over(left, right)))
}

/// `||` or `&&`, before whose right operand no lines stand.
#[tactic(auto, unfolding(crate::specs::Text::between))]
pub fn joined(alloc: Global, op: BinOp, left: &Value, right: &Value) -> Result<Value, NoMemory>
    requires left { left.now.height < 16 }
    requires right { right.now.height < 16 }
    ensures { IfGiven result (λ it. it ≡ joined op left.now right.now) }
{
    let one = test_of(alloc, left)?;
    let two = test_of(alloc, right)?;
    let (a, sign, b) = (one.as_str(), sign_of(op), two.as_str());
    let whole = format!(in alloc; "({a}{sign}{b})")?;
    Ok(test_value(Text::of(whole), right.after, over(left, right)))
}

/// `||` or `&&`, whose truth a temp has.
pub fn decided(alloc: Global, temp: u64, left: &Value, right: &Value) -> Result<Value, NoMemory>
    requires left { left.now.height < 16 }
    requires right { right.now.height < 16 }
    ensures { IfGiven result (λ it. it ≡ decided temp left.now right.now) }
{
    let text = temp_text(alloc, temp)?;
    Ok(number_value(text, right.after, over(left, right)))
}

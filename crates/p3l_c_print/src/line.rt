// Lines of C.

ghost use Rattle.std.specs.Prelude.{◌≡◌, ◌<◌, ◌++◌, string_bytes};
ghost use Rattle.p3l_base.specs.Memory.{IfGiven, OnGiven};
ghost use Rattle.p3l_c_print.specs.Line.{deeper, trap_number, trap_reason, trap_code, stop_line, turn_line, spent_text, begin_lines, choice_lines, loop_lines};
ghost use Rattle.p3l_c_print.specs.Text.{between};

use crate::text::Text;
use p3l_base::{NoMemory, TrapKind};
use std::alloc::Global;

/// The margin of the lines in a block.
pub fn deeper(alloc: Global, margin: &str) -> Result<Text, NoMemory>
    ensures { IfGiven result (λ inner. inner ≡ deeper margin.now) }
{
    Ok(Text::of(format!(in alloc; "    {margin}")?))
}

/// An operator between operands, in parentheses.
#[tactic(auto, unfolding(crate::specs::Text::between))]
pub fn between(alloc: Global, left: &str, sign: &str, right: &str) -> Result<Text, NoMemory>
    ensures { IfGiven result (λ text. text ≡ between sign.now left.now right.now) }
{
    Ok(Text::of(format!(in alloc; "({left}{sign}{right})")?))
}

/// The number of a trap among those of its module.
#[tactic(auto, unfolding(crate::specs::Line::trap_number))]
fn trap_number(trap: TrapKind) -> u64
    ensures number { result ≡ trap_number trap }
    ensures small { result < 8 }
{
    match trap {
        TrapKind::DivZero => 1,
        TrapKind::DivOver => 2,
        TrapKind::Index => 3,
        TrapKind::Shift => 4,
        TrapKind::Budget => 5,
        TrapKind::Turns => 6,
    }
}

/// The code that a function returns for a trap of a module.
#[tactic(auto, unfolding(crate::specs::Line::trap_code))]
fn trap_code(trap: TrapKind, home: u32) -> u64
    ensures { result ≡ trap_code trap home }
{
    trap_number(trap) + 8 * (home as u64)
}

/// Returns what went wrong at a trap, for a reader of the text.
#[tactic(auto, unfolding(crate::specs::Line::trap_reason))]
fn trap_reason(trap: TrapKind) -> &'static str
    ensures { result.now ≡ trap_reason trap }
{
    match trap {
        TrapKind::DivZero => "division by zero",
        TrapKind::DivOver => "division overflow",
        TrapKind::Index => "index out of range",
        TrapKind::Shift => "shift out of range",
        TrapKind::Budget => "budget exceeded",
        TrapKind::Turns => "turns exceeded",
    }
}

/// Puts a return with a trap after a text.
#[tactic(auto, unfolding(crate::specs::Line::stop_line))]
pub fn put_stop(
    alloc: Global,
    out: &mut String,
    margin: &str,
    test: &str,
    trap: TrapKind,
    home: u32,
) -> Result<(), NoMemory>
    ensures { OnGiven result (string_bytes out.new
        ≡ string_bytes out.old ++ stop_line margin.now test.now trap home) }
{
    let code = trap_code(trap, home);
    let reason = trap_reason(trap);
    let line = format!(in alloc; "{margin}if {test} return INT64_C({code}); /* {reason} */\n")?;
    out.push_str(line.as_str())?;
    Ok(())
}

/// The test that no turn is left of a budget.
#[tactic(auto, unfolding(crate::specs::Line::spent_text))]
fn spent_text(alloc: Global, budget: u32) -> Result<Text, NoMemory>
    ensures { IfGiven result (λ text. text ≡ spent_text budget) }
{
    Ok(Text::of(format!(in alloc; "(turns >= UINT64_C({budget}))")?))
}

/// Puts one more turn after a text.
#[tactic(auto, unfolding(crate::specs::Line::turn_line))]
fn put_count(alloc: Global, out: &mut String, margin: &str) -> Result<(), NoMemory>
    ensures { OnGiven result (string_bytes out.new
        ≡ string_bytes out.old ++ turn_line margin.now) }
{
    let line = format!(in alloc; "{margin}turns = turns + 1;\n")?;
    out.push_str(line.as_str())?;
    Ok(())
}

/// Puts the test of the budget, and one more turn after a text.
#[tactic(auto, using(crate::proofs::Joined::then))]
pub fn put_turn(
    alloc: Global,
    out: &mut String,
    margin: &str,
    budget: u32,
    home: u32,
) -> Result<(), NoMemory>
    ensures { OnGiven result (string_bytes out.new
        ≡ string_bytes out.old ++ begin_lines margin.now budget home) }
{
    let test = spent_text(alloc, budget)?;
    put_stop(alloc, out, margin, test.as_str(), TrapKind::Budget, home)?;
    put_count(alloc, out, margin)?;
    Ok(())
}

/// Puts a choice of blocks after a text.
pub fn put_choice(
    alloc: Global,
    out: &mut String,
    margin: &str,
    test: &str,
    then: &str,
    other: &str,
) -> Result<(), NoMemory>
    ensures { OnGiven result (string_bytes out.new
        ≡ string_bytes out.old ++ choice_lines margin.now test.now then.now other.now) }
{
    let lines = choice(alloc, margin, test, then, other)?;
    out.push_str(lines.as_str())?;
    Ok(())
}

#[tactic(auto, using(crate::proofs::Blocks::blocks))]
fn choice(
    alloc: Global,
    margin: &str,
    test: &str,
    then: &str,
    other: &str,
) -> Result<Text, NoMemory>
    ensures { IfGiven result (λ text. text ≡ choice_lines margin.now test.now then.now other.now) }
{
    if other.len() == 0 {
        return Ok(Text::of(format!(in alloc; "{margin}if {test} {{\n{then}{margin}}}\n")?));
    }
    if then.len() == 0 {
        return Ok(Text::of(format!(in alloc; "{margin}if (!{test}) {{\n{other}{margin}}}\n")?));
    }
    Ok(Text::of(format!(in alloc;
        "{margin}if {test} {{\n{then}{margin}}} else {{\n{other}{margin}}}\n"
    )?))
}

/// A loop of lines, a test that ends it, and more lines.
#[tactic(auto, using(crate::proofs::Blocks::blocks))]
fn loop_text(
    alloc: Global,
    margin: &str,
    before: &str,
    test: &str,
    after: &str,
) -> Result<Text, NoMemory>
    ensures { IfGiven result (λ text. text ≡ loop_lines margin.now before.now test.now after.now) }
{
    if before.len() == 0 {
        return Ok(Text::of(format!(in alloc; "{margin}while {test} {{\n{after}{margin}}}\n")?));
    }
    Ok(Text::of(format!(in alloc;
        "{margin}for (;;) {{\n{before}{margin}    if (!{test}) break;\n{after}{margin}}}\n"
    )?))
}

/// Puts a loop after a text.
pub fn put_loop(
    alloc: Global,
    out: &mut String,
    margin: &str,
    before: &str,
    test: &str,
    after: &str,
) -> Result<(), NoMemory>
    ensures { OnGiven result (string_bytes out.new
        ≡ string_bytes out.old ++ loop_lines margin.now before.now test.now after.now) }
{
    let lines = loop_text(alloc, margin, before, test, after)?;
    out.push_str(lines.as_str())?;
    Ok(())
}

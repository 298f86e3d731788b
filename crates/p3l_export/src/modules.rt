// The table of the modules.

ghost use Rattle.std.specs.Prelude.{◌≡◌, ◌++◌, string_bytes};
ghost use Rattle.p3l_base.specs.Memory.{IfGiven, OnGiven};
ghost use Rattle.p3l_export.specs.Modules.{body_name, constant_text, module_line, modules_text, rescue_text};
ghost use Rattle.p3l_export.specs.Numbered.{numbered};

use crate::lines::{put, put_table};
use p3l_base::NoMemory;
use p3l_skel::{ModuleInfo, ModuleKind};
use std::alloc::Global;

/// The C function of the body of a module, and none where it has no body.
fn body_name(alloc: Global, number: usize, kind: ModuleKind) -> Result<String, NoMemory>
    ensures { IfGiven result (λ name. string_bytes name ≡ body_name number kind) }
{
    let name = match kind {
        ModuleKind::Seq => format!(in alloc; "p3l_body_{number}")?,
        ModuleKind::Comp
        | ModuleKind::Pipe
        | ModuleKind::Farm
        | ModuleKind::Map
        | ModuleKind::Reduce
        | ModuleKind::Loop => String::from_str(alloc, "NULL")?,
    };
    Ok(name)
}

/// A number of 64 bits as C reads it.
fn constant_text(alloc: Global, number: i64) -> Result<String, NoMemory>
    ensures { IfGiven result (λ text. string_bytes text ≡ constant_text number) }
{
    let text = if number < -9_223_372_036_854_775_807 {
        String::from_str(alloc, "INT64_MIN")?
    } else {
        format!(in alloc; "{number}")?
    };
    Ok(text)
}

/// Tells whether a module has a rescue number, and the number.
fn rescue_text(alloc: Global, rescue: Option<i64>) -> Result<String, NoMemory>
    ensures { IfGiven result (λ text. string_bytes text ≡ rescue_text rescue) }
{
    let text = match rescue {
        None => String::from_str(alloc, "0, 0")?,
        Some(number) => {
            let constant = constant_text(alloc, number)?;
            format!(in alloc; "1, {constant}")?
        }
    };
    Ok(text)
}

/// Puts the row of a module after a text.
#[tactic(auto, unfolding(crate::specs::Modules::module_line))]
fn put_module(
    alloc: Global,
    text: &mut Vec<u8>,
    number: usize,
    info: &ModuleInfo,
) -> Result<(), NoMemory>
    ensures { OnGiven result (text.new.items ≡ text.old.items ++ module_line number info.now) }
{
    let name = info.name.as_str();
    let body = body_name(alloc, number, info.kind)?;
    let rescue = rescue_text(alloc, info.rescue)?;
    let words = format!(in alloc; "    {{ \"{name}\", {body}, {rescue} }},\n")?;
    put(text, words.as_str())
}

/// Puts the rows of the modules after a text.
fn put_rows(alloc: Global, text: &mut Vec<u8>, modules: &[ModuleInfo]) -> Result<(), NoMemory>
    ensures { OnGiven result (text.new.items
        ≡ text.old.items ++ numbered module_line 0 modules.now) }
{
    for number in 0..modules.len() {
        put_module(alloc, text, number, &modules[number])?;
    }
    Ok(())
}

/// Puts the table of the modules after a text.
#[tactic(auto, unfolding(crate::specs::Modules::modules_text))]
pub(crate) fn put_modules(
    alloc: Global,
    text: &mut Vec<u8>,
    modules: &[ModuleInfo],
) -> Result<(), NoMemory>
    ensures { OnGiven result (text.new.items ≡ text.old.items ++ modules_text modules.now) }
{
    let mut rows = Vec::new(alloc);
    put_rows(alloc, &mut rows, modules)?;
    put_table(
        alloc,
        text,
        "name, body, whether it has a rescue number, the number",
        "struct module_row MODULE",
        rows.as_slice(),
    )
}

// Functions of C.

ghost use Rattle.std.specs.Prelude.{◌≡◌, ◌+◌, ◌++◌, map, string_bytes};
ghost use Rattle.p3l_base.specs.Memory.{IfGiven, OnGiven};
ghost use Rattle.p3l_types.specs.Shape.{product};
ghost use Rattle.p3l_body.specs.Seq.{seq_tree};
ghost use Rattle.p3l_c.specs.Condition.{take_entries, zero_entry, vars_shapes, function_of};
ghost use Rattle.p3l_c_print.specs.Name.{name_text};
ghost use Rattle.p3l_c_print.specs.Function.{sizes_text, size_text, is_automatic, storage_text, taken_text, zero_text, entries_text, temp_line, temps_text, out_text, outs_text, opening_text, turns_text, body_text};

use crate::names::Names;
use crate::text::Text;
use p3l_base::NoMemory;
use p3l_body::{CheckedSeq, Var};
use p3l_types::product;
use std::alloc::Global;

/// The maximum number of words of an object that does not have static storage.
const MOST_AUTOMATIC: u64 = 512;

/// Returns true exactly if an object of these sizes does not have static storage.
fn is_automatic(sizes: &[u32]) -> bool
    ensures { result ≡ is_automatic sizes.now }
{
    product(sizes) <= MOST_AUTOMATIC
}

/// The storage of an object, and the type of its words.
fn storage_text(automatic: bool) -> &'static str
    ensures { result.now ≡ storage_text automatic }
{
    if automatic {
        "    int64_t "
    } else {
        "    static int64_t "
    }
}

/// Puts a size in brackets after a text.
fn put_size(alloc: Global, out: &mut String, size: u32) -> Result<(), NoMemory>
    ensures { OnGiven result (string_bytes out.new ≡ string_bytes out.old ++ size_text size) }
{
    let brackets = format!(in alloc; "[{size}]")?;
    out.push_str(brackets.as_str())?;
    Ok(())
}

/// The sizes of an object in brackets.
fn sizes_text(alloc: Global, sizes: &[u32]) -> Result<Text, NoMemory>
    ensures { IfGiven result (λ text. text ≡ sizes_text sizes.now) }
{
    let mut text = String::new(alloc);
    for size in sizes {
        put_size(alloc, &mut text, *size)?;
    }
    Ok(Text::of(text))
}

/// The place after an object that begins at a place. A byte is requested for each word, so a place
/// that 64 bits can't hold asks for more than any memory has.
fn place_after(alloc: Global, from: u64, sizes: &[u32]) -> Result<u64, NoMemory>
    ensures { IfGiven result (λ place. place ≡ from + product sizes.now) }
{
    let words = product(sizes);
    let before: Vec<u8> = Vec::with_capacity(alloc, from as usize)?;
    let own: Vec<u8> = Vec::with_capacity(alloc, words as usize)?;
    Ok(from + words)
}

/// Puts the declaration of an object that takes its words from `in` after a text.
fn put_taken(
    alloc: Global,
    out: &mut String,
    name: &str,
    sizes: &[u32],
    from: u64,
) -> Result<(), NoMemory>
    ensures { OnGiven result (string_bytes out.new
        ≡ string_bytes out.old ++ taken_text name.now sizes.now from) }
{
    let storage = storage_text(is_automatic(sizes));
    let brackets = sizes_text(alloc, sizes)?;
    let brackets = brackets.as_str();
    let lines = format!(in alloc;
        "{storage}{name}{brackets};\n    memcpy(&{name}, in + {from}, sizeof {name});\n"
    )?;
    out.push_str(lines.as_str())?;
    Ok(())
}

/// The declaration of an object whose words are 0.
fn zero_text(alloc: Global, name: &str, sizes: &[u32]) -> Result<Text, NoMemory>
    ensures { IfGiven result (λ text. text ≡ zero_text name.now sizes.now) }
{
    if sizes.len() == 0 {
        return Ok(Text::of(format!(in alloc; "    int64_t {name} = 0;\n")?));
    }
    let brackets = sizes_text(alloc, sizes)?;
    let brackets = brackets.as_str();
    if is_automatic(sizes) {
        return Ok(Text::of(format!(in alloc; "    int64_t {name}{brackets} = {{0}};\n")?));
    }
    Ok(Text::of(format!(in alloc;
        "    static int64_t {name}{brackets};\n    memset(&{name}, 0, sizeof {name});\n"
    )?))
}

/// Puts the declaration of an object whose words are 0 after a text.
fn put_zero(alloc: Global, out: &mut String, name: &str, sizes: &[u32]) -> Result<(), NoMemory>
    ensures { OnGiven result (string_bytes out.new
        ≡ string_bytes out.old ++ zero_text name.now sizes.now) }
{
    let text = zero_text(alloc, name, sizes)?;
    out.push_str(text.as_str())?;
    Ok(())
}

/// Puts the declaration of a temp after a text.
fn put_temp(alloc: Global, out: &mut String, temp: u64) -> Result<(), NoMemory>
    ensures { OnGiven result (string_bytes out.new ≡ string_bytes out.old ++ temp_line temp) }
{
    let line = format!(in alloc; "    int64_t t{temp};\n")?;
    out.push_str(line.as_str())?;
    Ok(())
}

/// Puts the declarations of temps after a text.
fn put_temps(alloc: Global, out: &mut String, temps: u64) -> Result<(), NoMemory>
    ensures { OnGiven result (string_bytes out.new ≡ string_bytes out.old ++ temps_text temps) }
{
    for temp in 0..temps {
        put_temp(alloc, out, temp)?;
    }
    Ok(())
}

/// Puts the copy of an object to `out` after a text.
fn put_out(alloc: Global, out: &mut String, name: &str, from: u64) -> Result<(), NoMemory>
    ensures { OnGiven result (string_bytes out.new
        ≡ string_bytes out.old ++ out_text name.now from) }
{
    let line = format!(in alloc; "    memcpy(out + {from}, &{name}, sizeof {name});\n")?;
    out.push_str(line.as_str())?;
    Ok(())
}

/// Puts the opening of the function of a module after a text.
fn put_opening(alloc: Global, out: &mut String, home: u32) -> Result<(), NoMemory>
    ensures { OnGiven result (string_bytes out.new ≡ string_bytes out.old ++ opening_text home) }
{
    let line = format!(in alloc;
        "static int64_t p3l_body_{home}(const int64_t *restrict in, int64_t *restrict out)\n{{\n"
    )?;
    out.push_str(line.as_str())?;
    Ok(())
}

/// The declaration of the counter of turns, and what keeps compilers from warning of unused names.
fn turns_text() -> &'static str
    ensures { result.now ≡ turns_text }
{
    "    uint64_t turns = 0;\n    (void)in;\n    (void)out;\n    (void)turns;\n"
}

impl Names<'_> {
    /// Puts the declarations of variables that take their words from `in` after a text.
    fn put_all_taken(&self, out: &mut String, vars: &[Var]) -> Result<(), NoMemory>
        ensures { OnGiven result (string_bytes out.new
            ≡ string_bytes out.old ++ entries_text self.now (take_entries 0 vars.now)) }
    {
        let mut from = 0;
        for var in vars {
            let name = self.object(&var.name)?;
            let sizes = var.shape.sizes.as_slice();
            put_taken(self.alloc, out, name.as_str(), sizes, from)?;
            from = place_after(self.alloc, from, sizes)?;
        }
        Ok(())
    }

    /// Puts the declarations of variables whose words are 0 after a text.
    fn put_all_zero(&self, out: &mut String, vars: &[Var]) -> Result<(), NoMemory>
        ensures { OnGiven result (string_bytes out.new
            ≡ string_bytes out.old ++ entries_text self.now (map zero_entry vars.now)) }
    {
        for var in vars {
            let name = self.object(&var.name)?;
            put_zero(self.alloc, out, name.as_str(), var.shape.sizes.as_slice())?;
        }
        Ok(())
    }

    /// Puts the declarations of the variables of a body after a text.
    fn put_entries(&self, out: &mut String, seq: &CheckedSeq<'_>) -> Result<(), NoMemory>
        ensures { OnGiven result (string_bytes out.new ≡ string_bytes out.old
            ++ entries_text self.now (function_of (seq_tree seq.now)).entries) }
    {
        self.put_all_taken(out, seq.ins.as_slice())?;
        self.put_all_zero(out, seq.outs.as_slice())?;
        self.put_all_zero(out, seq.locals.as_slice())?;
        Ok(())
    }

    /// Puts the copies of variables to `out` after a text.
    fn put_outs(&self, out: &mut String, vars: &[Var]) -> Result<(), NoMemory>
        ensures { OnGiven result (string_bytes out.new
            ≡ string_bytes out.old ++ outs_text self.now 0 (vars_shapes vars.now)) }
    {
        let mut from = 0;
        for var in vars {
            let name = self.object(&var.name)?;
            put_out(self.alloc, out, name.as_str(), from)?;
            from = place_after(self.alloc, from, var.shape.sizes.as_slice())?;
        }
        Ok(())
    }
}

/// The text of the function of a body.
pub fn body_text(alloc: Global, seq: &CheckedSeq<'_>) -> Result<Text, NoMemory>
    ensures { IfGiven result (λ text. text ≡ body_text (seq_tree seq.now)) }
{
    let names = Names::of(alloc, seq)?;
    let code = names.block("    ", seq.budget, seq.body)?;
    let mut text = String::new(alloc);
    put_opening(alloc, &mut text, seq.module)?;
    names.put_entries(&mut text, seq)?;
    put_temps(alloc, &mut text, code.temps)?;
    text.push_str(turns_text())?;
    text.push_str(code.text.as_str())?;
    names.put_outs(&mut text, seq.outs.as_slice())?;
    text.push_str("    return 0;\n}\n")?;
    Ok(Text::of(text))
}

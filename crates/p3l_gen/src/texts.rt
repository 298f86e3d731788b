// The texts that are generated.

ghost use Rattle.std.specs.Prelude.{◌≡◌, ◌+◌, ◌≤◌, ◌<◌, ◌^◌, ◌++◌, IfOk, string_bytes};
ghost use Rattle.p3l_base.specs.Memory.{IfGiven, OnGiven};
ghost use Rattle.p3l_gen.specs.Texts.{costs_text, factor_of, line_text, program_head, program_tail, program_text, stream_text, word_text};

use p3l_base::{List, NoMemory};
use std::alloc::Global;

/// The number of words of an item.
const WORDS: u64 = 16;

/// A program, costs of it, and a stream of items for it.
#[derive(Debug, Drop)]
pub struct Generated {
    /// A pipe of a scaling, a farm of a filter, and a sum, in canonical text.
    pub program: List<u8>,
    /// Its costs.
    pub costs: List<u8>,
    /// The items, a line each.
    pub stream: List<u8>,
}

/// The program in front of the factor.
fn program_head() -> &'static str
    ensures { result.now ≡ program_head }
{
    "const N = 16;\n\nseq scale in(int a[N]) out(int b[N])\n${\n  int i;\n  for (i = 0; i < N; i = i + 1) {\n    b[i] = a[i] * "
}

/// The program after the factor.
fn program_tail() -> &'static str
    ensures { result.now ≡ program_tail }
{
    ";\n  }\n}$\nend seq\n\nseq filter in(int a[N]) out(int b[N])\n${\n  int i;\n  int j;\n  for (i = 0; i < N; i = i + 1) {\n    for (j = 0; j < N; j = j + 1) {\n      b[i] = b[i] + (j + 1) * a[(i + j) % N];\n    }\n  }\n}$\nend seq\n\nfarm filters in(int a[N]) out(int b[N])\n  filter in(a) out(b)\nend farm\n\nseq add in(int x, int y) out(int z)\n${\n  z = x + y;\n}$\nend seq\n\nreduce total in(int a[N]) out(int s)\n  add in(a[*i]) out(s)\nend reduce\n\npipe main in(int a[N]) out(int s)\n  scale in(a) out(int b[N])\n  filters in(b) out(int c[N])\n  total in(c) out(s)\nend pipe\n"
}

/// The program of a number, whose factor is one of 2 to 6.
fn program_text(alloc: Global, n: u32) -> Result<List<u8>, NoMemory>
    ensures { IfGiven result (λ text. text ≡ program_text n) }
{
    let factor = n % 5 + 2;
    let digits = format!(in alloc; "{factor}")?;
    let mut text = String::from_str(alloc, program_head())?;
    text.push_str(digits.as_str())?;
    text.push_str(program_tail())?;
    Ok(List::from_vec(text.into_bytes()))
}

/// The costs of the program.
fn costs_text(alloc: Global) -> Result<List<u8>, NoMemory>
    ensures { IfGiven result (λ text. text ≡ costs_text) }
{
    let text = String::from_str(
        alloc,
        "setup = 10\nword = 1\n[seq]\nscale = 20\nfilter = 400\nadd = 5\n",
    )?;
    Ok(List::from_vec(text.into_bytes()))
}

/// Appends word `i` of a line to a text.
fn put_word(alloc: Global, text: &mut String, first: u64, i: u64) -> Result<(), NoMemory>
    requires { first + i < 2 ^ 64 }
    ensures { OnGiven result (string_bytes text.new ≡ string_bytes text.old ++ word_text first i) }
{
    if i > 0 {
        text.push(' ')?;
    }
    let word = first + i;
    let digits = format!(in alloc; "{word}")?;
    text.push_str(digits.as_str())?;
    Ok(())
}

/// Appends the line that begins with a number to a text.
fn put_line(alloc: Global, text: &mut String, first: u64) -> Result<(), NoMemory>
    requires { first ≤ 2 ^ 63 }
    ensures { OnGiven result (string_bytes text.new ≡ string_bytes text.old ++ line_text first) }
{
    for i in 0..WORDS {
        put_word(alloc, text, first, i)?;
    }
    text.push('\n')?;
    Ok(())
}

/// The stream of a number with `items` items.
fn stream_text(alloc: Global, n: u32, items: u32) -> Result<List<u8>, NoMemory>
    ensures { IfGiven result (λ text. text ≡ stream_text n items) }
{
    let mut text = String::new(alloc);
    for k in 0..items {
        put_line(alloc, &mut text, n as u64 + k as u64 + 1)?;
    }
    Ok(List::from_vec(text.into_bytes()))
}

/// The texts of a number: line `k` of the stream, from 1, has the words `n + k` to `n + k + 15`.
pub fn generate(alloc: Global, n: u32, items: u32) -> Result<Generated, NoMemory>
    ensures program { IfGiven result (λ generated. generated.program ≡ program_text n) }
    ensures costs { IfOk result (λ generated. generated.costs ≡ costs_text) }
    ensures stream { IfOk result (λ generated. generated.stream ≡ stream_text n items) }
{
    let program = program_text(alloc, n)?;
    let costs = costs_text(alloc)?;
    let stream = stream_text(alloc, n, items)?;
    Ok(Generated {
        program,
        costs,
        stream,
    })
}

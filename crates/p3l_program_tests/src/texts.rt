// Texts that several tests speak of, by their names, and how the lines of texts spell bytes.
//
// A text is the lines behind its name up to an empty line, each with a mark and a blank before it. `\0`
// spells a byte of 0, and `\x` with two digits to the base 16 the byte of their value. A backslash at
// the end of a line stands for no line feed.

use crate::examples::texts::EXAMPLES;
use crate::spelled::SPELLED;
use std::alloc::Global;
use std::test::Fail;

const SHARED: &str = r#"
# Twice an item and one.
text double
| seq main in(int x) out(int y)
| ${ y = x * 2 + 1; }$
| end seq

# A hundred by an item.
text hundred
| seq main in(int x) out(int y)
| ${ y = 100 / x; }$
| end seq

# A name that is not declared.
text undeclared
| seq main in(int x) out(int y)
| ${ y = z; }$
| end seq

# A body, and a farm of another after it.
text farmed
| seq f in(int x) out(int y)
| ${ y = x + 1; }$
| end seq
|
| seq g in(int x) out(int y)
| ${ y = x * 3; }$
| end seq
|
| farm w in(int x) out(int y)
|   g in(x) out(y)
| end farm
|
| pipe main in(int x) out(int y)
|   f in(x) out(int t)
|   w in(t) out(y)
| end pipe

# Costs by which the farm's body takes six times as long.
text farmed-costs
| setup = 0
| word = 0
| [seq]
| f = 10
| g = 60

# The certificate of the counts of `farmed` for eight processors, by its costs.
text certificate
| p3l-cert 1
| processors 8
| counts 5
| service 12
| used 8
| row 0 11 8 9
| row 0 12 8 8
| row 1 11 8 1
| row 1 12 8 1
| row 2 11 8 8
| row 2 12 8 7
| row 3 11 6 7
| row 3 12 6 7
| row 3 22 3 4
| row 3 24 3 4
| row 3 33 2 3
| row 3 36 2 3
| row 3 44 1 2
| row 3 48 1 2
| row 3 55 1 2
| row 3 60 1 1
| row 3 66 1 1
| row 3 72 1 1
| end

# The trace of a body on one item.
text trace
| p3l-trace 1
| 0 source
| 2 run
| 1 sink
| end 3 0

# A loop round a farm of four workers.
text halves
| seq half in(int x, int c) out(int y, int d)
| ${ y = x / 2; d = c + 1; }$
| end seq
| farm halves in(int x, int c) out(int y, int d) workers 4
|   half in(x, c) out(y, d)
| end farm
| seq more in(int x, int c) out(int b)
| ${ b = x > 1; }$
| end seq
| loop main in(int x, int c) out(int y, int d) turns 10 tokens 4
|   halves in(x, c) out(y, d)
|   while more in(y, d) out(int again)
| end loop

# A list of five elements folded by subtraction.
text less-of-five
| seq less in(int x, int y) out(int z) ${ z = x - y; }$ end seq reduce main in(int a[5]) out(int s) workers 2 less in(a[*i]) out(s) end reduce\

# The same of four elements.
text less-of-four
| seq less in(int x, int y) out(int z) ${ z = x - y; }$ end seq reduce main in(int a[4]) out(int s) less in(a[*i]) out(s) end reduce\

# A pipe of two bodies.
text piped
| seq f in(int x) out(int y) ${ y = x + 1; }$ end seq seq g in(int x) out(int y) ${ y = x * 3; }$ end seq pipe main in(int x) out(int y) f in(x) out(int t) g in(t) out(y) end pipe\

# The stages of `piped` in one process, of which `main` is a farm.
text fused
| seq f in(int x) out(int y)
| ${
|   y = x + 1;
| }$
| end seq
|
| seq g in(int x) out(int y)
| ${
|   y = x * 3;
| }$
| end seq
|
| comp main_work in(int x) out(int y)
|   f in(x) out(int t)
|   g in(t) out(y)
| end comp
|
| farm main in(int x) out(int y)
|   main_work in(x) out(y)
| end farm

# The generated program of numbers that are 2 modulo 5.
text generated
| const N = 16;
|
| seq scale in(int a[N]) out(int b[N])
| ${
|   int i;
|   for (i = 0; i < N; i = i + 1) {
|     b[i] = a[i] * 4;
|   }
| }$
| end seq
|
| seq filter in(int a[N]) out(int b[N])
| ${
|   int i;
|   int j;
|   for (i = 0; i < N; i = i + 1) {
|     for (j = 0; j < N; j = j + 1) {
|       b[i] = b[i] + (j + 1) * a[(i + j) % N];
|     }
|   }
| }$
| end seq
|
| farm filters in(int a[N]) out(int b[N])
|   filter in(a) out(b)
| end farm
|
| seq add in(int x, int y) out(int z)
| ${
|   z = x + y;
| }$
| end seq
|
| reduce total in(int a[N]) out(int s)
|   add in(a[*i]) out(s)
| end reduce
|
| pipe main in(int a[N]) out(int s)
|   scale in(a) out(int b[N])
|   filters in(b) out(int c[N])
|   total in(c) out(s)
| end pipe

# The costs of what is generated.
text generated-costs
| setup = 10
| word = 1
| [seq]
| scale = 20
| filter = 400
| add = 5

# The stream of number 7 with three items.
text generated-stream
| 8 9 10 11 12 13 14 15 16 17 18 19 20 21 22 23
| 9 10 11 12 13 14 15 16 17 18 19 20 21 22 23 24
| 10 11 12 13 14 15 16 17 18 19 20 21 22 23 24 25

# One more, and then twice that.
text more-then-twice
| seq more in(int x) out(int y) ${ y = x + 1; }$ end seq seq twice in(int x) out(int y) ${ y = x * 2; }$ end seq pipe main in(int x) out(int z) more in(x) out(int y) twice in(y) out(z) end pipe\

# A farm of a hundred by an item.
text parts-farmed
| seq part in(int x) out(int y) ${ y = 100 / x; }$ end seq farm main in(int x) out(int y) part in(x) out(y) end farm\

# A loop that halves a number and counts its turns.
text halved
| seq half in(int x, int c) out(int y, int d) ${ y = x / 2; d = c + 1; }$ end seq seq more in(int x, int c) out(int z) ${ z = x > 1; }$ end seq loop main in(int x, int c) out(int y, int d) turns 10 half in(x, c) out(y, d) while more in(y, d) out(int z) end loop\

# A map of 508 pieces, whose results are added by a stage of its own: with its ends, the pieces
# and that stage are 511 processes.
text map-of-508
| seq f in(int x) out(int y) ${ y = x + 1; }$ end seq seq sum in(int a[508]) out(int s) ${ int i; for (i = 0; i < 508; i = i + 1) { s = s + a[i]; } }$ end seq map m in(int a[508]) out(int b[508]) workers 508 f in(a[*i]) out(b[*i]) end map pipe main in(int a[508]) out(int s) m in(a) out(int b[508]) sum in(b) out(s) end pipe\

# 256 segments of a reduce: with their joins they are 512 processes.
text reduce-of-512
| seq less in(int x, int y) out(int z) ${ z = x - y; }$ end seq reduce main in(int a[512]) out(int s) workers 256 less in(a[*i]) out(s) end reduce\
"#;

/// The first line of a text.
pub fn first_line(text: &str) -> &str {
    match text.split_once('\n') {
        None => text,
        Some((line, _)) => line,
    }
}

/// The lines of the text of a name, with their marks, in one of these texts.
fn found<'a>(texts: &'a str, name: &str) -> Option<&'a str> {
    for part in texts.split("\ntext ") {
        if first_line(part) == name {
            return part.split("\n\n").next();
        }
    }
    None
}

/// The lines of the text of a name, with their marks.
pub fn lines_of(name: &str) -> Result<&'static str, Fail> {
    for texts in [SHARED, SPELLED, EXAMPLES] {
        if let Some(lines) = found(texts, name) {
            return Ok(lines);
        }
    }
    Err("no text has this name".into())
}

/// The text of a name.
pub fn text_of(alloc: Global, name: &str) -> Result<Vec<u8>, Fail> {
    spelled(alloc, lines_of(name)?, '|')
}

/// The value of a digit to the base 16.
fn digit(byte: u8) -> u8 {
    match byte {
        b'0'..=b'9' => byte.saturating_sub(b'0'),
        _ => byte.saturating_sub(87),
    }
}

/// Adds the byte that stands after a backslash, and the text behind it.
fn add_escaped(bytes: &mut Vec<u8>, piece: &[u8]) -> Result<(), Fail> {
    let rest = match piece {
        [b'0', rest @ ..] => {
            bytes.push(0)?;
            rest
        }
        [b'x', high, low, rest @ ..] => {
            bytes.push(digit(*high).saturating_mul(16).saturating_add(digit(*low)))?;
            rest
        }
        _ => piece,
    };
    Ok(bytes.extend_from_slice(rest)?)
}

/// Adds the bytes of a line, in which a backslash stands before what is no text.
fn add_pieces(bytes: &mut Vec<u8>, line: &str) -> Result<(), Fail> {
    match line.split_once('\\') {
        None => bytes.extend_from_slice(line.as_bytes())?,
        Some((front, pieces)) => {
            bytes.extend_from_slice(front.as_bytes())?;
            for piece in pieces.split('\\') {
                add_escaped(bytes, piece.as_bytes())?;
            }
        }
    }
    Ok(())
}

/// Adds a line with its line feed, which it has not where a backslash ends it.
fn add_line(bytes: &mut Vec<u8>, line: &str) -> Result<(), Fail> {
    add_pieces(bytes, line)?;
    if !line.ends_with('\\') {
        bytes.push(b'\n')?;
    }
    Ok(())
}

/// Returns what the lines of a text spell that begin with a mark.
pub fn spelled(alloc: Global, text: &str, mark: char) -> Result<Vec<u8>, Fail> {
    let mut bytes = Vec::new(alloc);
    for line in text.lines() {
        if let Some(rest) = line.strip_prefix(mark) {
            add_line(&mut bytes, rest.strip_prefix(' ').unwrap_or(rest))?;
        }
    }
    Ok(bytes)
}

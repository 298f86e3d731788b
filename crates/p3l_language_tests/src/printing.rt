// Texts and the canonical texts of their programs, written by hand.

use crate::everything::{CANONICAL, EVERYTHING};
use p3l_ast::SourceRefusal;
use p3l_base::List;
use p3l_print::print;
use p3l_reader::read;
use p3l_text_laws::read_printed;
use std::alloc::{AllocError, Global};
use std::process::Abort;
use std::test::Fail;

/// The canonical text of the program that a text spells.
fn printed(rt: &impl Abort, alloc: Global, text: &[u8]) -> Result<List<u8>, Fail> {
    let program = read(alloc, text);
    assert!(rt; program.is_ok());
    match program {
        Ok(program) => Ok(print(alloc, &program)?),
        Err(_) => Ok(List::new(alloc)),
    }
}

/// Prints the program of a text, and what that gives once more: both are the canonical text.
fn compare(rt: &impl Abort, alloc: Global, text: &str, canonical: &str) -> Result<(), Fail> {
    let once = printed(rt, alloc, text.as_bytes())?;
    assert_eq!(rt; once.as_slice(), canonical.as_bytes(), "{text}");
    let twice = printed(rt, alloc, once.as_slice())?;
    assert_eq!(rt; twice.as_slice(), canonical.as_bytes(), "{text}");
    Ok(())
}

/// Tells whether the program that a text spells, printed and read once more, has the same canonical
/// text.
fn is_read_again(alloc: Global, text: &[u8]) -> Result<bool, SourceRefusal> {
    let program = read(alloc, text)?;
    let canonical = print(alloc, &program)?;
    if canonical.len() > 1_048_576 {
        return Ok(false);
    }
    let again = read_printed(alloc, &program)?;
    let twice = print(alloc, &again)?;
    Ok(twice.as_slice() == canonical.as_slice())
}

#[test]
fn what_was_printed_is_read_again(rt: HostRuntime) -> Result<(), Fail> {
    let again = is_read_again(rt.alloc(), EVERYTHING.as_bytes());
    assert!(rt; again == Ok(true));
    Ok(())
}

#[test]
fn every_production_has_its_lines(rt: HostRuntime) -> Result<(), Fail> {
    compare(&rt, rt.alloc(), EVERYTHING, CANONICAL)
}

#[test]
fn entries_are_separated_by_an_empty_line(rt: HostRuntime) -> Result<(), Fail> {
    let table = [
        ("", ""),
        (" // only a note\r\n", ""),
        (
            "const a=1;const /* one */ b=2;",
            "const a = 1;\n\nconst b = 2;\n",
        ),
    ];
    for (text, canonical) in table {
        compare(&rt, rt.alloc(), text, canonical)?;
    }
    Ok(())
}

#[test]
fn a_rescue_stands_after_the_budget(rt: HostRuntime) -> Result<(), Fail> {
    let table = [
        (
            "seq m in(int x)out(int y)rescue-7${}$end seq",
            "seq m in(int x) out(int y) rescue -7\n${\n}$\nend seq\n",
        ),
        (
            "seq m in(int x) out(int y) budget N rescue - /* no */ K ${ }$ end seq",
            "seq m in(int x) out(int y) budget N rescue -K\n${\n}$\nend seq\n",
        ),
        (
            "comp c in(int x) out(int y) rescue 0 m in(x) out(y) end comp",
            "comp c in(int x) out(int y) rescue 0\n  m in(x) out(y)\nend comp\n",
        ),
    ];
    for (text, canonical) in table {
        compare(&rt, rt.alloc(), text, canonical)?;
    }
    Ok(())
}

#[test]
fn operands_have_the_parentheses_that_they_need(rt: HostRuntime) -> Result<(), Fail> {
    let table = [
        ("(((x)))", "x"),
        ("(x*2)+1", "x * 2 + 1"),
        ("(x+1)*2", "(x + 1) * 2"),
        ("(x-1)-2", "x - 1 - 2"),
        ("x-(1-2)", "x - (1 - 2)"),
        ("x-(1*2)", "x - 1 * 2"),
        ("x*(2/3)", "x * (2 / 3)"),
        ("x<<(1+2)", "x << 1 + 2"),
        ("(x<<1)+2", "(x << 1) + 2"),
        ("(x&1)==0", "(x & 1) == 0"),
        ("x&(1==0)", "x & 1 == 0"),
        ("(x==1)==0", "x == 1 == 0"),
        ("x==(1==0)", "x == (1 == 0)"),
        ("x<(1==0)", "x < (1 == 0)"),
        ("(x|1)^2", "(x | 1) ^ 2"),
        ("x|(1^2)", "x | 1 ^ 2"),
        ("(x||1)&&2", "(x || 1) && 2"),
        ("x||(1&&2)", "x || 1 && 2"),
        ("-(x+1)", "-(x + 1)"),
        ("-(-x)", "--x"),
        ("!(~(x))", "!~x"),
        ("(-x)*2", "-x * 2"),
        ("-(x*2)", "-(x * 2)"),
        ("x*(-2)", "x * -2"),
    ];
    for (expression, canonical) in table {
        let alloc = rt.alloc();
        let text = [HEAD, expression, TAIL].concat(alloc)?;
        let wanted = [CANONICAL_HEAD, canonical, CANONICAL_TAIL].concat(alloc)?;
        compare(&rt, alloc, text.as_str(), wanted.as_str())?;
    }
    Ok(())
}

/// A text in which one line stands again and again between its head and its tail.
fn repeated(
    alloc: Global,
    head: &str,
    line: &str,
    count: usize,
    tail: &str,
) -> Result<Vec<u8>, AllocError> {
    let mut text = Vec::new(alloc);
    text.extend_from_slice(head.as_bytes())?;
    for _ in 0..count {
        text.extend_from_slice(line.as_bytes())?;
    }
    text.extend_from_slice(tail.as_bytes())?;
    Ok(text)
}

#[test]
fn twenty_thousand_statements_are_read_and_printed(rt: HostRuntime) -> Result<(), Fail> {
    let alloc = rt.alloc();
    let text = repeated(alloc, HEAD, "x;y=", 19_999, "x;}$end seq")?;
    let lines = repeated(
        alloc,
        CANONICAL_HEAD,
        "x;\n  y = ",
        19_999,
        "x;\n}$\nend seq\n",
    )?;
    let canonical = printed(&rt, alloc, text.as_slice())?;
    assert!(rt; canonical.as_slice() == lines.as_slice());
    Ok(())
}

/// A body that assigns an expression.
const HEAD: &str = "seq m in(int x)out(int y)${y=";

const TAIL: &str = ";}$end seq";

/// The same in canonical text.
const CANONICAL_HEAD: &str = "seq m in(int x) out(int y)\n${\n  y = ";

const CANONICAL_TAIL: &str = ";\n}$\nend seq\n";

// Refusals and their places, and texts that use every production.

use crate::everything::EVERYTHING;
use p3l_ast::SourceRefusal;
use p3l_reader::read;
use std::alloc::{AllocError, Global};
use std::test::Fail;

/// The number of the first fault with its line and column; (0, 0, 0) for a program.
fn fault(alloc: Global, text: &[u8]) -> (u8, u32, u32) {
    match read(alloc, text) {
        Ok(_) => (0, 0, 0),
        Err(SourceRefusal::At { fault, pos }) => (fault.number(), pos.line, pos.col),
        Err(SourceRefusal::NoMemory) => (255, 0, 0),
    }
}

/// A text with one byte again and again in its middle.
fn filled(
    alloc: Global,
    head: &str,
    byte: u8,
    count: usize,
    tail: &str,
) -> Result<Vec<u8>, AllocError> {
    let mut text = Vec::new(alloc);
    text.extend_from_slice(head.as_bytes())?;
    for _ in 0..count {
        text.push(byte)?;
    }
    text.extend_from_slice(tail.as_bytes())?;
    Ok(text)
}

#[test]
fn first_faults(rt: HostRuntime) -> Result<(), Fail> {
    let table: [(&str, (u8, u32, u32)); 30] = [
        ("#", (1, 1, 1)),
        ("const a = 1;\n\u{80}", (1, 2, 1)),
        ("const b = 1; # const a = 9223372036854775808;", (1, 1, 14)),
        ("seq main in(int 1x)", (2, 1, 17)),
        ("const a = 07;", (2, 1, 11)),
        ("$", (2, 1, 1)),
        ("const a = 1; /* open", (2, 1, 14)),
        ("const a 1;", (3, 1, 9)),
        ("seq m in(int x) out(int y) ${ }", (3, 1, 31)),
        (
            "seq m in(int x) out(int y) ${ y = x +; }$ end seq",
            (3, 1, 38),
        ),
        (
            "seq m in(int x) out(int y) ${ y = 1(; }$ end seq",
            (3, 1, 36),
        ),
        (
            "seq m in(int x) out(int y) ${ if (x) { } else y = 1; }$ end seq",
            (3, 1, 47),
        ),
        (
            "seq m in(int x) out(int y) ${ int a; y = 1; int b; }$ end seq",
            (3, 1, 45),
        ),
        ("seq m in(int x) out(int y) ${ }$ end pipe", (3, 1, 38)),
        ("pipe p in(int x) out(int y) end pipe", (3, 1, 29)),
        ("farm f in(int x) out(int y) workers w end farm", (3, 1, 39)),
        (
            "map m in(int a[2]) out(int b[2]) w in(a[*]) out(b[*i]) end map",
            (3, 1, 42),
        ),
        (
            "loop l in(int x) out(int y) turns 3 b in(x) out(y) end loop",
            (3, 1, 52),
        ),
        (
            "comp main in(int x) out(int y)\n  rescue in(x) out(y)",
            (3, 2, 10),
        ),
        (
            "seq m in(int x) out(int y) rescue 3 budget 2 ${ }$ end seq",
            (3, 1, 37),
        ),
        (
            "seq m in(int x) out(int y) rescue --3 ${ }$ end seq",
            (3, 1, 36),
        ),
        (
            "comp c in(int x) out(int y) rescue 9223372036854775808 m in(x) out(y) end comp",
            (4, 1, 36),
        ),
        ("pipe p in(int x) out(int y) rescue 1", (3, 1, 29)),
        ("const rescue = 1;", (3, 1, 7)),
        ("const a = 9223372036854775807;", (0, 0, 0)),
        ("const a = 9223372036854775808;", (4, 1, 11)),
        ("seq m in(int x[9999999999999999999]", (4, 1, 16)),
        ("", (0, 0, 0)),
        (" // a note\r\n\t/*/ ** */", (0, 0, 0)),
        ("const a = 1; const a = 1;", (0, 0, 0)),
    ];
    for (text, place) in table {
        assert_eq!(rt; fault(rt.alloc(), text.as_bytes()), place, "{text}");
    }
    Ok(())
}

#[test]
fn early_ends(rt: HostRuntime) -> Result<(), Fail> {
    let table = [
        "const",
        "const a",
        "const a =",
        "const a = 1",
        "seq",
        "seq m in",
        "seq m in(",
        "seq m in(int",
        "seq m in(int x",
        "seq m in(int x[",
        "seq m in(int x[N",
        "seq m in(int x) out(int y,",
        "seq main in(int x) out(int y) ${",
        "seq m in(int x) out(int y) budget",
        "seq m in(int x) out(int y) rescue",
        "seq m in(int x) out(int y) rescue -",
        "comp c in(int x) out(int y) rescue -3",
        "seq m in(int x) out(int y) ${ int i",
        "seq m in(int x) out(int y) ${ y",
        "seq m in(int x) out(int y) ${ y[",
        "seq m in(int x) out(int y) ${ y = -",
        "seq m in(int x) out(int y) ${ y = x",
        "seq m in(int x) out(int y) ${ if (x",
        "seq m in(int x) out(int y) ${ if (x) {",
        "seq m in(int x) out(int y) ${ if (x) { } else",
        "seq m in(int x) out(int y) ${ while",
        "seq m in(int x) out(int y) ${ for (i = 0; i < 3;",
        "seq m in(int x) out(int y) ${ }$ end",
        "pipe p in(int x) out(int y) a in(x) out(int z[2]",
        "comp c in(int x) out(int y) a in(x) out(y)",
        "farm f in(int x) out(int y) workers 3 w in(x[*i",
        "reduce r in(int x[4]) out(int y) o in(x[*i]) out(y) end",
        "loop l in(int x) out(int y) turns 3 tokens",
        "loop l in(int x) out(int y) turns 3 b in(x) out(y) while",
    ];
    for text in table {
        let bytes = text.as_bytes();
        let (number, line, col) = fault(rt.alloc(), bytes);
        assert_eq!(rt; (number, line), (3, 1), "{text}");
        assert_eq!(rt; col as usize, bytes.len() + 1, "{text}");
    }
    Ok(())
}

#[test]
fn limits(rt: HostRuntime) -> Result<(), Fail> {
    let head = "seq m in(int x) out(int y) ${ y = ";
    let tail = "x; }$ end seq";
    let table: [(&str, u8, usize, &str, (u8, u32, u32)); 11] = [
        (head, b'(', 64, tail, (3, 1, 100)),
        (head, b'(', 65, tail, (8, 1, 99)),
        (head, b'-', 256, tail, (0, 0, 0)),
        (head, b'-', 257, tail, (8, 1, 291)),
        ("const ", b'a', 64, " = 1;", (0, 0, 0)),
        ("const ", b'a', 65, " = 1;", (5, 1, 7)),
        ("x ", b'a', 65, "", (3, 1, 1)),
        ("seq ", b'_', 70, "", (5, 1, 5)),
        ("", b' ', 1_048_576, "", (0, 0, 0)),
        ("", b' ', 1_048_577, "", (6, 1, 1)),
        ("#", b' ', 1_048_576, "", (6, 1, 1)),
    ];
    for (head, byte, count, tail, place) in table {
        let text = filled(rt.alloc(), head, byte, count, tail)?;
        assert_eq!(rt; fault(rt.alloc(), text.as_slice()), place, "{head}{count}");
    }
    Ok(())
}

#[test]
fn every_production(rt: HostRuntime) -> Result<(), Fail> {
    let alloc = rt.alloc();
    assert_eq!(rt; fault(alloc, EVERYTHING.as_bytes()), (0, 0, 0));
    let Ok(program) = read(alloc, EVERYTHING.as_bytes()) else {
        return Ok(());
    };
    assert_eq!(rt; program.entries.len(), 8);
    assert_eq!(rt; (program.end.line, program.end.col), (16, 1));
    Ok(())
}

// Texts with one damage: the first line that isn't of its form is reported.

use p3l_trace::{TraceRefusal, read_trace};
use std::test::Fail;

// Texts, each with the line that is reported.
const DAMAGED: [(&[u8], u64); 40] = [
    (b"", 1),
    (b"\n", 1),
    (b"p3l-trace 1", 1),
    (b"p3l-trace 2\n0 source\nend 1 0\n", 1),
    (b"p3l-trace 1 \n0 source\nend 1 0\n", 1),
    (b"p3l-trace 1\r\n0 source\nend 1 0\n", 1),
    (b"P3l-trace 1\n0 source\nend 1 0\n", 1),
    (b"p3l-cert 1\n0 source\nend 1 0\n", 1),
    (b"p3l-trace 1\n", 2),
    (b"p3l-trace 1\n\nend 1 0\n", 2),
    (b"p3l-trace 1\n00 source\nend 1 0\n", 2),
    (b"p3l-trace 1\n01 source\nend 1 0\n", 2),
    (b"p3l-trace 1\n+1 source\nend 1 0\n", 2),
    (b"p3l-trace 1\n-1 source\nend 1 0\n", 2),
    (b"p3l-trace 1\n 0 source\nend 1 0\n", 2),
    (b"p3l-trace 1\n0  source\nend 1 0\n", 2),
    (b"p3l-trace 1\n0\tsource\nend 1 0\n", 2),
    (b"p3l-trace 1\n0 source \nend 1 0\n", 2),
    (b"p3l-trace 1\n0 Source\nend 1 0\n", 2),
    (b"p3l-trace 1\n0 sources\nend 1 0\n", 2),
    (b"p3l-trace 1\n0 sourc\nend 1 0\n", 2),
    (b"p3l-trace 1\n0 foldgather\nend 1 0\n", 2),
    (b"p3l-trace 1\n0\nend 1 0\n", 2),
    (b"p3l-trace 1\nsource\nend 1 0\n", 2),
    (b"p3l-trace 1\n4294967296 source\nend 1 0\n", 2),
    (b"p3l-trace 1\n0 source\r\nend 1 0\n", 2),
    (b"p3l-trace 1\nend 0\n", 2),
    (b"p3l-trace 1\nend\n", 2),
    (b"p3l-trace 1\nend 0 0", 2),
    (b"p3l-trace 1\nend 00 0\n", 2),
    (b"p3l-trace 1\nend 0 00\n", 2),
    (b"p3l-trace 1\nend 18446744073709551616 0\n", 2),
    (b"p3l-trace 1\nend 0 18446744073709551616\n", 2),
    (b"p3l-trace 1\nend 0 0 0\n", 2),
    (b"p3l-trace 1\n0 source\nend 1\n0\n", 3),
    (b"p3l-trace 1\n0 source\n1 sink\nfoo\nend 2 0\n", 4),
    (b"p3l-trace 1\n0 source\n1 sink\n", 4),
    (b"p3l-trace 1\n0 source\nend 1 0\n\n", 4),
    (b"p3l-trace 1\n0 source\nend 1 0\n1 sink\n", 4),
    (b"p3l-trace 1\n0 source\nend 1 0\nend 1 0\n", 4),
];

#[test]
fn the_first_line_that_is_not_of_its_form(rt: HostRuntime) -> Result<(), Fail> {
    for (text, wanted) in DAMAGED {
        match read_trace(rt.alloc(), text) {
            Err(TraceRefusal::BadLine { line }) => assert_eq!(rt; line, wanted),
            _ => assert!(rt; false, "line {wanted}"),
        }
    }
    Ok(())
}

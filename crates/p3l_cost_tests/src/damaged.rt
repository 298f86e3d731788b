// Certificates with one damage, and with two where their order decides.

use crate::pipe::{LINES, refusal, text, text_with};
use p3l_base::NoMemory;
use p3l_cert::{CertRefusal, Claim, read_cert};
use std::alloc::Global;
use std::process::Abort;
use std::test::Fail;

/// A line in place of one of the certificate's, counted from 0.
type Changed = (usize, &'static [u8]);

/// The refusals that are expected of a certificate.
#[derive(Clone, Copy, Drop)]
enum Due {
    Nothing,
    /// The row of this number, what it keeps, and what is found.
    Wrong(u64, u32, u32),
    /// The row of this number, and the node, bound and processors of the one that is missing.
    Missing(u64, u32, u128, u32),
    False(Claim),
    /// The line of this number.
    Bad(u64),
}

impl Due {
    fn refusal(&self) -> Option<CertRefusal> {
        match *self {
            Due::Nothing => None,
            Due::Wrong(row, kept, found) => Some(CertRefusal::RowWrong { row, kept, found }),
            Due::Missing(row, node, bound, cap) => Some(CertRefusal::RowMissing {
                row,
                node,
                bound,
                cap,
            }),
            Due::False(claim) => Some(CertRefusal::ClaimWrong(claim)),
            Due::Bad(line) => Some(CertRefusal::BadText { line }),
        }
    }
}

// Each with one line changed must be refused so.
fn refused(rt: &impl Abort, alloc: Global, table: &[(usize, &[u8], Due)]) -> Result<(), NoMemory> {
    for (number, line, expected) in table {
        let text = text_with(alloc, (*number, line), (*number, line))?;
        assert_eq!(rt; refusal(rt, alloc, text.as_slice())?, expected.refusal());
    }
    Ok(())
}

// Each with two lines changed must be refused so.
fn refused_two(
    rt: &impl Abort,
    alloc: Global,
    table: &[(Changed, Changed, Due)],
) -> Result<(), NoMemory> {
    for (first, second, expected) in table {
        let text = text_with(alloc, *first, *second)?;
        assert_eq!(rt; refusal(rt, alloc, text.as_slice())?, expected.refusal());
    }
    Ok(())
}

const ROWS: [(usize, &[u8], Due); 5] = [
    (9, b"row 2 11 8 9\n", Due::Wrong(4, 9, 8)),
    (7, b"row 1 11 8 2\n", Due::Wrong(2, 2, 1)),
    (21, b"", Due::Missing(4, 3, 66, 1)),
    (5, b"", Due::Missing(17, 0, 11, 8)),
    (6, b"", Due::Missing(17, 0, 12, 8)),
];

#[test]
fn rows(rt: HostRuntime) -> Result<(), Fail> {
    let whole = text(rt.alloc())?;
    assert_eq!(rt; refusal(&rt, rt.alloc(), whole.as_slice())?, None);
    Ok(refused(&rt, rt.alloc(), &ROWS)?)
}

const MORE_ROWS: [(usize, &[u8], Due); 2] = [
    (22, b"row 3 72 1 1\nrow 3 100 1 1\n", Due::Nothing),
    (22, b"row 3 72 1 1\nrow 4 0 1 1\n", Due::Wrong(18, 1, 0)),
];

#[test]
fn more_rows(rt: HostRuntime) -> Result<(), Fail> {
    Ok(refused(&rt, rt.alloc(), &MORE_ROWS)?)
}

const CLAIMS: [(usize, &[u8], Due); 5] = [
    (2, b"counts 0\n", Due::False(Claim::Counts)),
    (2, b"counts 5 5\n", Due::False(Claim::Counts)),
    (3, b"service 13\n", Due::False(Claim::Service)),
    (4, b"used 7\n", Due::False(Claim::Used)),
    (1, b"processors 7\n", Due::False(Claim::Fits)),
];

#[test]
fn claims(rt: HostRuntime) -> Result<(), Fail> {
    Ok(refused(&rt, rt.alloc(), &CLAIMS)?)
}

// True counts and true rows, of which the last claim says that a sooner time is to be had.
const NOT_THE_BEST: &[u8] =
    b"p3l-cert 1\nprocessors 8\ncounts 4\nservice 15\nused 7\nrow 0 14 8 8\nrow 0 15 8 7\nrow 1 14 8 1\nrow 1 15 8 1\nrow 2 14 8 7\nrow 2 15 8 6\nrow 3 14 6 7\nrow 3 15 6 7\nrow 3 28 3 4\nrow 3 30 3 4\nrow 3 42 2 3\nrow 3 45 2 3\nrow 3 56 1 2\nrow 3 60 1 1\nrow 3 70 1 1\nrow 3 75 1 1\nrow 3 84 1 1\nrow 3 90 1 1\nend\n";

#[test]
fn counts_that_are_not_the_best(rt: HostRuntime) -> Result<(), Fail> {
    assert_eq!(rt;
        refusal(&rt, rt.alloc(), NOT_THE_BEST)?,
        Due::False(Claim::Least).refusal()
    );
    Ok(())
}

const FIRST_OF_TWO: [(Changed, Changed, Due); 6] = [
    (
        (2, b"counts 0\n"),
        (3, b"service 13\n"),
        Due::False(Claim::Counts),
    ),
    (
        (3, b"service 13\n"),
        (4, b"used 7\n"),
        Due::False(Claim::Service),
    ),
    (
        (4, b"used 7\n"),
        (1, b"processors 6\n"),
        Due::False(Claim::Used),
    ),
    ((9, b"row 2 11 8 9\n"), (21, b""), Due::Missing(4, 3, 66, 1)),
    ((7, b"row 1 11 8 2\n"), (21, b""), Due::Wrong(2, 2, 1)),
    ((5, b""), (6, b""), Due::Missing(16, 0, 12, 8)),
];

#[test]
fn the_first_of_two(rt: HostRuntime) -> Result<(), Fail> {
    Ok(refused_two(&rt, rt.alloc(), &FIRST_OF_TWO)?)
}

// True rows that say that fewer processes are to be had in the same time.
const NOT_THE_FEWEST: &[u8] =
    b"p3l-cert 1\nprocessors 10\ncounts 7\nservice 10\nused 10\nrow 0 9 10 11\nrow 0 10 10 9\nrow 1 9 10 11\nrow 1 10 10 1\nrow 2 9 10 9\nrow 2 10 10 8\nrow 3 9 8 9\nrow 3 10 8 9\nrow 3 18 4 5\nrow 3 20 4 5\nrow 3 27 2 3\nrow 3 30 2 3\nrow 3 36 2 3\nrow 3 40 2 3\nrow 3 45 1 2\nrow 3 50 1 2\nrow 3 54 1 2\nrow 3 60 1 1\nrow 3 63 1 1\nrow 3 70 1 1\nrow 3 72 1 1\nrow 3 80 1 1\nend\n";

#[test]
fn counts_that_are_not_the_fewest(rt: HostRuntime) -> Result<(), Fail> {
    assert_eq!(rt;
        refusal(&rt, rt.alloc(), NOT_THE_FEWEST)?,
        Due::False(Claim::Least).refusal()
    );
    Ok(())
}

const FIRST_TEST: [(Changed, Changed, Due); 5] = [
    ((2, b"counts 02\n"), (3, b"service 13\n"), Due::Bad(3)),
    (
        (2, b"counts 0\n"),
        (9, b"row 2 11 8 9\n"),
        Due::False(Claim::Counts),
    ),
    (
        (1, b"processors 7\n"),
        (9, b"row 2 11 8 9\n"),
        Due::False(Claim::Fits),
    ),
    ((9, b"row 2 11 8 9\n"), (6, b""), Due::Wrong(3, 9, 8)),
    (
        (5, b"row 0 11 8 8\n"),
        (9, b"row 2 11 8 9\n"),
        Due::Wrong(0, 8, 9),
    ),
];

#[test]
fn the_first_test_decides(rt: HostRuntime) -> Result<(), Fail> {
    Ok(refused_two(&rt, rt.alloc(), &FIRST_TEST)?)
}

const UNUSED: [(usize, &[u8], Due); 3] = [
    (7, b"row 1 5 3 4\nrow 1 11 8 1\n", Due::Nothing),
    (7, b"row 1 5 3 1\nrow 1 11 8 1\n", Due::Wrong(2, 1, 4)),
    (
        10,
        b"row 2 12 7 6\nrow 2 12 8 7\n",
        Due::Missing(5, 3, 12, 5),
    ),
];

#[test]
fn rows_that_nothing_rests_on(rt: HostRuntime) -> Result<(), Fail> {
    Ok(refused(&rt, rt.alloc(), &UNUSED)?)
}

const TEXTS: [(usize, &[u8], Due); 8] = [
    (1, b"processors 08\n", Due::Bad(2)),
    (1, b"processors 513\n", Due::Bad(2)),
    (2, b"counts \n", Due::Bad(3)),
    (
        3,
        b"service 1298074214633706907132624082305023\n",
        Due::False(Claim::Service),
    ),
    (
        3,
        b"service 1298074214633706907132624082305024\n",
        Due::Bad(4),
    ),
    (7, b"row 1 12 8 1\n", Due::Bad(9)),
    (23, b"", Due::Bad(24)),
    (23, b"end\n\n", Due::Bad(25)),
];

const TURNED: [(Changed, Changed, Due); 1] = [(
    (7, b"row 1 12 8 1\n"),
    (8, b"row 1 11 8 1\n"),
    Due::Bad(9),
)];

#[test]
fn texts(rt: HostRuntime) -> Result<(), Fail> {
    refused(&rt, rt.alloc(), &TEXTS)?;
    Ok(refused_two(&rt, rt.alloc(), &TURNED)?)
}

// The line in which each prefix of a text ends, if a prefix is read as a certificate or reported at
// another line.
pub fn first_unlike(alloc: Global, text: &[u8]) -> Option<u64> {
    let mut line = 1;
    for end in 0..text.len() {
        match read_cert(alloc, &text[..end]) {
            Err(CertRefusal::BadText { line: found }) if found == line => {}
            _ => return Some(line),
        }
        if text[end] == b'\n' {
            line += 1;
        }
    }
    None
}

#[test]
fn no_front_is_a_certificate(rt: HostRuntime) -> Result<(), Fail> {
    let alloc = rt.alloc();
    let whole = text(alloc)?;
    assert_eq!(rt; LINES.len(), 24);
    assert_eq!(rt; first_unlike(alloc, whole.as_slice()), None);
    Ok(())
}

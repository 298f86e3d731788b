// Certificates that counts are the best: made, verified, and refused for each damage.

use crate::damage::{Evidence, refuse_beginnings};
use crate::texts::{lines_of, text_of};
use crate::world::{play, take_block};
use std::alloc::Global;
use std::process::Abort;
use std::test::Fail;

const CASES: &str = r#"
= What is certified is written first and verified.
file a.p3l = farmed
file a.toml = farmed-costs

$ explain a.p3l --processors 8 --costs a.toml --cert c
> processors 8 used 8 service 12
> 0 pipe main procs 8 service 12
> 1 seq f procs 1 service 10
> 2 farm w procs 7 service 12 count 5
> 3 seq g procs 1 service 60
$ verify-cert a.p3l --cert c --costs a.toml
> certificate holds: processors 8 used 8 service 12
leaves c = certificate
leaves a.p3l = farmed
leaves a.toml = farmed-costs

# The text of the counts is not put where it can't be, and the certificate is written before.
fails put 1 after 0
$ explain a.p3l --processors 8 --costs a.toml --cert c
! write fault
? 10
leaves c = certificate
leaves a.p3l = farmed
leaves a.toml = farmed-costs

= Counts of four workers are not the best.
# True counts and true rows of four workers, which are not the best.
file a.p3l = farmed
file a.toml = farmed-costs
file c
| p3l-cert 1
| processors 8
| counts 4
| service 15
| used 7
| row 0 14 8 8
| row 0 15 8 7
| row 1 14 8 1
| row 1 15 8 1
| row 2 14 8 7
| row 2 15 8 6
| row 3 14 6 7
| row 3 15 6 7
| row 3 28 3 4
| row 3 30 3 4
| row 3 42 2 3
| row 3 45 2 3
| row 3 56 1 2
| row 3 60 1 1
| row 3 70 1 1
| row 3 75 1 1
| row 3 84 1 1
| row 3 90 1 1
| end

$ verify-cert a.p3l --cert c --costs a.toml
! evidence: 72 ClaimWrong Least
? 13

= A true row more does no harm: it is not needed.
file a.p3l = farmed
file a.toml = farmed-costs
file c
| p3l-cert 1
| processors 8
| counts 5
| service 12
| used 8
| row 0 11 8 9
| row 0 12 8 8
| row 1 11 8 1
| row 1 12 8 1
| row 2 11 8 8
| row 2 12 8 7
| row 3 11 6 7
| row 3 12 6 7
| row 3 22 3 4
| row 3 24 3 4
| row 3 33 2 3
| row 3 36 2 3
| row 3 44 1 2
| row 3 48 1 2
| row 3 55 1 2
| row 3 60 1 1
| row 3 66 1 1
| row 3 72 1 1
| row 3 100 1 1
| end

$ verify-cert a.p3l --cert c --costs a.toml
> certificate holds: processors 8 used 8 service 12
"#;

#[test]
fn what_is_certified_is_written_first_and_verified(rt: HostRuntime) -> Result<(), Fail> {
    play(&rt, rt.alloc(), CASES)
}

/// A line of the certificate, what stands in its place, and what is reported of it.
const DAMAGES: &str = r#"| row 2 11 8 8 => | row 2 11 8 9 => 70 RowWrong 4: 9 is not 8
| row 3 66 1 1 => # => 71 RowMissing 4: 3 66 1
| row 0 11 8 9 => # => 71 RowMissing 17: 0 11 8
| row 0 12 8 8 => # => 71 RowMissing 17: 0 12 8
| end => | row 4 0 1 1\x0aend => 70 RowWrong 18: 1 is not 0
| service 12 => | service 13 => 72 ClaimWrong Service
| used 8 => | used 7 => 72 ClaimWrong Used
| counts 5 => | counts => 72 ClaimWrong Counts
| processors 8 => | processors 7 => 72 ClaimWrong Fits
| p3l-cert 1 => | p3l-cert 2 => 73 BadText 1
| processors 8 => | processors 08 => 73 BadText 2
| processors 8 => | processors 513 => 73 BadText 2
| row 0 12 8 8 => | row 0 12 8 8\x0d => 73 BadText 7
| row 0 12 8 8 => | row 0 11 8 9 => 73 BadText 7
| end => | end\x0a => 73 BadText 25
| end => | end\ => 73 BadText 24"#;

/// Verifies the certificate with another line in the place of one, with this end.
fn verify(rt: &impl Abort, alloc: Global, from: &str, to: &str, end: &str) -> Result<(), Fail> {
    let lines = lines_of("certificate")?.replace(alloc, from, to)?;
    let files = "file a.p3l = farmed\nfile a.toml = farmed-costs\nfile c";
    let words = "verify-cert a.p3l --cert c --costs a.toml";
    let block = format!(in alloc; "\n{files}\n{lines}\n$ {words}\n{end}")?;
    take_block(rt, alloc, block.as_str())
}

/// Verifies the certificate with the damage of a row.
fn refuse(rt: &impl Abort, alloc: Global, row: &str) -> Result<(), Fail> {
    let (from, rest) = row.split_once(" => ").ok_or("no line")?;
    let (to, refusal) = rest.split_once(" => ").ok_or("no refusal")?;
    let end = format!(in alloc; "! evidence: {refusal}\n? 13")?;
    verify(rt, alloc, from, to, end.as_str())
}

#[test]
fn damaged_rows_claims_and_texts_are_refused(rt: HostRuntime) -> Result<(), Fail> {
    for row in DAMAGES.lines() {
        refuse(&rt, rt.alloc(), row)?;
    }
    Ok(())
}

#[test]
fn no_beginning_of_a_certificate_is_one(rt: HostRuntime) -> Result<(), Fail> {
    let bytes = text_of(rt.alloc(), "certificate")?;
    let certificate = Evidence {
        name: "c",
        bytes: bytes.as_slice(),
        head: "\nfile a.p3l = farmed\nfile a.toml = farmed-costs",
        step: "verify-cert a.p3l --cert c --costs a.toml",
    };
    refuse_beginnings(&rt, rt.alloc(), &certificate, "73 BadText", 7)
}

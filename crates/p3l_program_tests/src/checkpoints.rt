// Runs that are saved and resumed: what comes out of both parts, wherever a run is cut, and snapshots
// with one damage.

use crate::damage::{Evidence, refuse_one_more, refuse_rows};
use crate::texts::text_of;
use crate::world::{Ended, files_of, left_by, perform, play};
use p3l_io::MemFiles;
use std::alloc::Global;
use std::process::Abort;
use std::test::Fail;

const CASES: &str = r#"
= Two parts of a run write what it writes.
# All files that the commands below read.
file m.p3l = double
file h.p3l = hundred
file p
| 0 2 0 1
file sources
| 0 0 0
file one
| 0 2 1
file front
| 0 2
file idle
| 1 2
file empty
file other
| 3

# The third item stands in the inbox, and the second is on its way.
# The sink can't fire, and the body can.
$ save m.p3l --processors 4 --schedule file:p --output s
< 1
< 2
< -3
> 3
! saved: items 3, picks 4
$ resume s --stats
> 5
> -5
! stats: items 3, fired 5, idle 0, bound 9
$ resume s --schedule seed:7 --stats
< 4
> 5
> -5
> 9
! stats: items 4, fired 8, idle 0, bound 12
$ resume s --schedule file:idle --stats
< 4
! stats: items 2, fired 1, idle 1, bound 6
! stopped: 1 fired, 1 idle
? 1
$ resume s
< x
> 5
> -5
! stream: line 1: 100 BadWord
? 6

# The items end before the second pick.
$ save m.p3l --processors 4 --schedule file:sources --output s
< 1
! saved: items 1, picks 1
$ resume s
< 2
> 3
> 5

# Items count from the first one of the part that was saved, whether they were sent in it or not.
$ save h.p3l --processors 4 --schedule file:one --output s
< 5
< 0
> 20
! saved: items 2, picks 3
$ resume s
< 2
! trap: item 2: division by zero in main
? 7
$ save h.p3l --processors 4 --schedule file:front --output s
< 0
< 1
! saved: items 2, picks 2
$ resume s
! trap: item 1: division by zero in main
? 7

# Without a pick nothing is taken and nothing is put.
$ save m.p3l --processors 4 --schedule file:empty --output s
< 1
< 2
< -3
! saved: items 0, picks 0
$ resume s --stats
< 1
< 2
< -3
> 3
> 5
> -5
! stats: items 3, fired 9, idle 0, bound 9

fails file 4
$ save m.p3l --processors 4 --schedule file:p --output s
< 1
< 2
< -3
> 3
! saved: items 3, picks 4
$ resume s --schedule file:p
! file fault: s
? 9

# The fifth call of the files fails: that after the snapshot is read.
fails file 5
$ save m.p3l --processors 4 --schedule file:p --output s
< 1
< 2
< -3
> 3
! saved: items 3, picks 4
$ resume s --schedule file:p
! file fault: p
? 9

fails take 1
$ save m.p3l --processors 4 --schedule file:empty --output s
< 1
< 2
< -3
! saved: items 0, picks 0
$ resume s --schedule file:other
< 1
! schedule: line 1: 96 NoSuchProcess 3 of 3
? 12
$ resume s
< 1
! read fault
? 8

fails put 1 after 0
$ save m.p3l --processors 4 --schedule file:empty --output s
< 1
< 2
< -3
! saved: items 0, picks 0
$ resume s
< 1
< x
! write fault
? 10

= A state by hand is resumed.
file s = double-snapshot

$ resume s --stats
> 5
> 7
! stats: items 3, fired 5, idle 0, bound 9

= A beginning of a snapshot is refused, before picks that aren't there.

file s
$ resume s --schedule file:p
! evidence: 130 BadShot 0
? 13

file s
| P3LS\
$ resume s --schedule file:p
! evidence: 130 BadShot 4
? 13
"#;

/// A snapshot of these bytes, which is resumed by picks that aren't there: it is refused before.
fn snapshot_of(bytes: &[u8]) -> Evidence<'_> {
    Evidence {
        name: "s",
        bytes,
        head: "",
        step: "resume s --schedule file:p",
    }
}

/// Places of the snapshot by hand with other bytes for them, and what is reported.
const DAMAGES: &str = "0=0: 130 BadShot 0
7=2: 130 BadShot 4
# Neither with an item nor without one; neither a value nor a trap.
24=2: 130 BadShot 24
89=2: 130 BadShot 89
# The image is a byte longer than it is, and a byte shorter.
109=195: 130 BadShot 304
109=193: 130 BadShot 303
110=0: 80 BadMagic
117=7: 81 Version 7
121=0: 83 BadField 8
143=2: 92 TreeWrong
184=2: 90 CodeUnsafe 0
303=0: 91 NotLinked
# An item more was sent, and one more came out.
15=3: 131 NotSound
23=2: 131 NotSound
# Numbers that no run counts up to.
8=128: 131 NotSound
41=128: 131 NotSound";

#[test]
fn two_parts_of_a_run_write_what_it_writes_and_damages_are_refused(
    rt: HostRuntime,
) -> Result<(), Fail> {
    play(&rt, rt.alloc(), CASES)?;
    let bytes = text_of(rt.alloc(), "double-snapshot")?;
    refuse_rows(&rt, rt.alloc(), &snapshot_of(bytes.as_slice()), DAMAGES)
}

/// Three items are sent, and one comes out.
const SAVED: &str = r#"save m.p3l --processors 4 --schedule file:p --output s
< 1
< 2
< -3
> 3
! saved: items 3, picks 4"#;

#[test]
fn a_saved_snapshot_with_one_more_is_refused(rt: HostRuntime) -> Result<(), Fail> {
    let head = "\nfile m.p3l = double\nfile p\n| 0 2 0 1";
    let bytes = left_by(&rt, rt.alloc(), head, SAVED, "s")?;
    let snapshot = snapshot_of(bytes.as_slice());
    // One item more that was sent, and one byte more.
    refuse_rows(&rt, rt.alloc(), &snapshot, "15=3: 131 NotSound")?;
    refuse_one_more(&rt, rt.alloc(), &snapshot, "130 BadShot")
}

/// The input of forty items after this count of them.
fn input_after(alloc: Global, count: usize) -> Result<String, Fail> {
    let mut lines = String::new(alloc);
    for line in count..40 {
        lines.push_str(if line % 2 == 0 { "\n< 64 0" } else { "\n< 3 0" })?;
    }
    Ok(lines)
}

/// Returns the number of items with which a run was saved, as its line says.
fn items_in(alloc: Global, lines: &[u8], picks: usize) -> Result<Option<usize>, Fail> {
    for items in 0..40 {
        let line = format!(in alloc; "saved: items {items}, picks {picks}\n")?;
        if line.as_str().as_bytes() == lines {
            return Ok(Some(items));
        }
    }
    Ok(None)
}

/// The program, and this count of picks by turns, but for one of the workers.
fn files_for(alloc: Global, count: usize) -> Result<MemFiles, Fail> {
    let picks = "0 1 2 3 4 5 7 8 9 ".repeat(alloc, 7)?;
    let length = count.saturating_mul(2);
    let bytes = picks.as_str().as_bytes().get(..length).ok_or("too few")?;
    let mut files = files_of(alloc, "\nfile m.p3l = halves")?;
    files.add("p", bytes)?;
    Ok(files)
}

/// Takes these words with the input after a count of items.
fn part(
    rt: &impl Abort,
    alloc: Global,
    words: &str,
    items: usize,
    files: &mut MemFiles,
) -> Result<Ended, Fail> {
    let input = input_after(alloc, items)?;
    let step = format!(in alloc; "{words}{input}")?;
    let ended = perform(alloc, "", step.as_str(), files)?;
    assert_eq!(rt; ended.status, 0, "{words}");
    Ok(ended)
}

/// The first part of a run that is saved after the picks, and the second part behind it.
const FIRST: &str = "save m.p3l --processors 16 --capacity 1 --schedule file:p --output s";

const SECOND: &str = "resume s";

/// Resumes a run that was saved so after this count of picks: what both parts write is the whole.
fn resume(
    rt: &impl Abort,
    alloc: Global,
    first: &Ended,
    count: usize,
    files: &mut MemFiles,
) -> Result<(), Fail> {
    let items = items_in(alloc, first.lines.as_slice(), count)?.ok_or("not saved")?;
    let second = part(rt, alloc, SECOND, items, files)?;
    let whole = "1 6\n1 1\n".repeat(alloc, 20)?;
    let rest = whole
        .as_str()
        .as_bytes()
        .strip_prefix(first.output.as_slice());
    assert!(rt; rest == Some(second.output.as_slice()), "{count}");
    Ok(())
}

/// Saves a run after this count of picks, and resumes it.
fn cut(rt: &impl Abort, alloc: Global, count: usize) -> Result<(), Fail> {
    let mut files = files_for(alloc, count)?;
    let first = part(rt, alloc, FIRST, 0, &mut files)?;
    resume(rt, alloc, &first, count, &mut files)
}

#[test]
fn a_run_may_be_cut_after_each_of_its_picks(rt: HostRuntime) -> Result<(), Fail> {
    for count in 1..61 {
        cut(&rt, rt.alloc(), count)?;
    }
    Ok(())
}

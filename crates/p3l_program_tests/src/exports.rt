// Exported programs: when `export` writes its file, and the parts that the file has.

use crate::world::{left_by, play};
use p3l_export::{ENGINE, HEAD};
use std::alloc::Global;
use std::process::Abort;
use std::test::Fail;

const CASES: &str = r#"
= Nothing is taken from the input or put on the output, and the program's file stays.
leaves m.p3l = farmed

fails take 1
fails put 1 after 0
file m.p3l = farmed
file a.toml = farmed-costs
$ export m.p3l --processors 8 --costs a.toml --output c
< 1
$ export m.p3l --processors 8 --output c --capacity 1
< 1

= A program that is refused leaves the file as it was.
leaves c = farmed-costs

file m.p3l = undeclared
file c = farmed-costs
$ export m.p3l --processors 4 --output c
! source: 2:8: 40 Undeclared
? 3

file m.p3l = farmed
file c = farmed-costs
$ export m.p3l --processors 3 --output c
! too few processors: need 4
? 5
"#;

#[test]
fn an_export_touches_no_more_than_its_file(rt: HostRuntime) -> Result<(), Fail> {
    play(&rt, rt.alloc(), CASES)
}

/// The program that is exported, and its costs.
const FILES: &str = "\nfile m.p3l = farmed\nfile a.toml = farmed-costs";

/// Returns the text that a command leaves in the file `c`.
fn exported(rt: &impl Abort, alloc: Global, step: &str) -> Result<String, Fail> {
    let bytes = left_by(rt, alloc, FILES, step, "c")?;
    Ok(String::from_utf8(bytes).map_err(|_| "no text")?)
}

/// Returns what an exported text has between the two parts of the engine.
fn own_part(text: &str) -> Result<&str, Fail> {
    let rest = text.strip_prefix(HEAD).ok_or("no head")?;
    Ok(rest.strip_suffix(ENGINE).ok_or("no engine")?)
}

/// Each text has both parts of the engine, and between them the program's own.
#[test]
fn what_is_exported_has_bodies_and_tables_in_the_engine(rt: HostRuntime) -> Result<(), Fail> {
    let step = "export m.p3l --processors 8 --costs a.toml --output c";
    let text = exported(&rt, rt.alloc(), step)?;
    let own = own_part(text.as_str())?;
    for piece in ["static int64_t p3l_body_0(", "struct module_row MODULE"] {
        assert!(&rt; own.contains(piece), "{piece}");
    }
    Ok(())
}

/// The costs, the processors and the capacity choose the tables.
#[test]
fn what_is_exported_depends_on_its_words(rt: HostRuntime) -> Result<(), Fail> {
    let step = "export m.p3l --processors 8 --costs a.toml --output c";
    let text = exported(&rt, rt.alloc(), step)?;
    let own = own_part(text.as_str())?;
    for other in [
        "export m.p3l --processors 8 --output c",
        "export m.p3l --processors 4 --costs a.toml --output c",
        "export m.p3l --processors 8 --costs a.toml --output c --capacity 3",
    ] {
        let another = exported(&rt, rt.alloc(), other)?;
        let theirs = own_part(another.as_str())?;
        assert!(&rt; theirs != own, "{other}");
    }
    Ok(())
}

// Images of an older version, and images whose net is another: what `migrate` makes of them.

use crate::damaged_images::compiled;
use crate::world::{files_of, holds, play, take};
use std::alloc::Global;
use std::process::Abort;
use std::test::Fail;

const CASES: &str = r#"
= A net is linked anew.
file i = gathered-image

# An image with a net that its tree doesn't have, and what commands come to on it.
$ exec i
< 1 2 3 4 5
! evidence: 91 NotLinked
? 13
$ migrate i --output new
$ exec new --stats
< 1 2 3 4 5
> -5
! stats: items 1, fired 14, idle 0, bound 14

= A refused migration changes no file.
none new

file i = gathered-image
$ migrate i
! usage: the words are not a command of p3l
? 2

fails file 1
file i = gathered-image
$ migrate i --output new
! file fault: i
? 9

file i
| P3L\
$ migrate i --output new
! evidence: 82 Short 0
? 13

fails file 2
file i = gathered-image
$ migrate i --output new
! write fault
? 10
"#;

#[test]
fn nets_are_linked_anew_and_refused_migrations_change_no_file(rt: HostRuntime) -> Result<(), Fail> {
    play(&rt, rt.alloc(), CASES)
}

/// The image in version 1 of which these are the bytes in version 2: it says nothing of rescue
/// numbers, of which its one module, `main`, has none.
fn older(alloc: Global, bytes: &[u8]) -> Result<Vec<u8>, Fail> {
    let mut old = Vec::new(alloc);
    for (place, byte) in bytes.iter().enumerate() {
        if place != 22 {
            old.push(if place == 7 { 1 } else { *byte })?;
        }
    }
    Ok(old)
}

/// The image runs, and is migrated to the file `new`.
const MIGRATED: &str = r#"exec i --stats
< 1
< 2
< -3
> 3
> 5
> -5
! stats: items 3, fired 9, idle 0, bound 9
$ migrate i --output new"#;

/// Migrates an image of the older version, which must become the other one and stay as it is.
fn migrate(rt: &impl Abort, alloc: Global, old: &[u8], image: &[u8]) -> Result<(), Fail> {
    let mut files = files_of(alloc, "")?;
    files.add("i", old)?;
    take(rt, alloc, MIGRATED, &mut files)?;
    assert!(rt; holds(&files, "new", image) && holds(&files, "i", old));
    Ok(())
}

#[test]
fn an_image_of_the_older_version_becomes_the_compiled_one(rt: HostRuntime) -> Result<(), Fail> {
    let image = compiled(&rt, rt.alloc())?;
    let old = older(rt.alloc(), image.as_slice())?;
    assert_eq!(&rt; old.len() + 1, image.len());
    migrate(&rt, rt.alloc(), old.as_slice(), image.as_slice())
}

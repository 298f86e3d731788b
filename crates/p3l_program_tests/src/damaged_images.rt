// Images with one damage, and with two where their order decides.

use crate::damage::{Evidence, refuse_at, refuse_one_more, refuse_rows};
use crate::spelled::FIELDS;
use crate::texts::text_of;
use crate::world::{left_by, play};
use std::alloc::Global;
use std::process::Abort;
use std::test::Fail;

const CASES: &str = r#"
= Spelled images run where their net is linked.

file i = double-image
$ exec i --stats
< 1
< 2
< -3
> 3
> 5
> -5
! stats: items 3, fired 9, idle 0, bound 9

file i = hundred-image
$ exec i --stats
< 5
< 0
< 2
> 20
! stats: items 3, fired 7, idle 0, bound 9
! trap: item 2: division by zero in main
? 7

file i = fold-image
$ exec i --stats
< 1 2 3 4 5
> -5
! stats: items 1, fired 14, idle 0, bound 14

# A net of another form is refused.
file i = gathered-image
$ exec i --stats
< 1 2 3 4 5
! evidence: 91 NotLinked
? 13
"#;

/// An image of these bytes, which is run on three items.
fn image_of(bytes: &[u8]) -> Evidence<'_> {
    Evidence {
        name: "i",
        bytes,
        head: "",
        step: "exec i --stats\n< 1\n< 2\n< -3",
    }
}

/// Places of the image of twice an item and one with other bytes for them, and what is reported.
const DAMAGES: &str = "0=0: 80 BadMagic
7=7: 81 Version 7
7=3: 81 Version 3
4=1: 81 Version 16777217
11=0: 83 BadField 8
10=4: 83 BadField 8
# No module.
15=0: 83 BadField 12
16=7: 83 BadField 16
17=65: 83 BadField 17
# A name that begins with a digit.
18=49: 83 BadField 18
25=0: 83 BadField 22
29=1: 83 BadField 26
33=0: 83 BadField 30
# The node takes two words, and its module's code one.
33=2: 92 TreeWrong
57=2: 92 TreeWrong
70=13: 83 BadField 70
85=18: 83 BadField 85
# A slot outside the memory.
74=2: 90 CodeUnsafe 0
# A budget above its limit.
50=16: 90 CodeUnsafe 0
# A memory with no room for the out word.
65=1: 90 CodeUnsafe 0
# A turn in the place of the end.
102=11: 90 CodeUnsafe 0
110=0: 83 BadField 107
# More credits than room.
114=5: 83 BadField 111
127=12: 83 BadField 127
131=1: 83 BadField 128
147=2: 83 BadField 144
# The channels have the old capacity.
11=5: 91 NotLinked
110=5: 91 NotLinked
114=1: 91 NotLinked
169=10: 91 NotLinked
177=1: 91 NotLinked
193=0: 91 NotLinked
# The first by its place.
16=7 33=0: 83 BadField 16
# A field before the tree, the tree before its codes, codes before the net.
33=2 147=2: 83 BadField 144
33=2 74=9: 92 TreeWrong
74=9 193=0: 90 CodeUnsafe 0";

#[test]
fn spelled_images_run_and_their_damages_are_refused(rt: HostRuntime) -> Result<(), Fail> {
    play(&rt, rt.alloc(), CASES)?;
    let bytes = text_of(rt.alloc(), "double-image")?;
    refuse_rows(&rt, rt.alloc(), &image_of(bytes.as_slice()), DAMAGES)
}

/// The field that a beginning of this length doesn't hold whole.
fn field_at(length: usize) -> usize {
    let mut field = 0;
    for begin in FIELDS {
        if *begin <= length {
            field = *begin;
        }
    }
    field
}

/// Runs the beginning of this length of an image, which is refused at its last field.
fn refuse_beginning(
    rt: &impl Abort,
    alloc: Global,
    image: &Evidence,
    length: usize,
) -> Result<(), Fail> {
    let bytes = image.bytes.get(..length).ok_or("too short")?;
    refuse_at(rt, alloc, image, bytes, "82 Short", field_at(length))
}

#[test]
fn no_beginning_of_an_image_is_one(rt: HostRuntime) -> Result<(), Fail> {
    let alloc = rt.alloc();
    let bytes = text_of(alloc, "double-image")?;
    let image = image_of(bytes.as_slice());
    for length in 0..image.bytes.len() {
        refuse_beginning(&rt, alloc, &image, length)?;
    }
    refuse_one_more(&rt, alloc, &image, "84 TrailingBytes")
}

/// The image that is compiled of twice an item and one.
pub fn compiled(rt: &impl Abort, alloc: Global) -> Result<Vec<u8>, Fail> {
    let step = "compile m.p3l --processors 4 --output i";
    left_by(rt, alloc, "\nfile m.p3l = double", step, "i")
}

/// Runs a compiled image whose last field, the channel that the body's process writes, is another.
fn refuse_other_channel(rt: &impl Abort, alloc: Global, image: &Evidence) -> Result<(), Fail> {
    let last = image.bytes.len().saturating_sub(1);
    let row = format!(in alloc; "{last}=0: 91 NotLinked")?;
    refuse_rows(rt, alloc, image, row.as_str())
}

#[test]
fn a_compiled_image_is_refused_as_a_spelled_one(rt: HostRuntime) -> Result<(), Fail> {
    let bytes = compiled(&rt, rt.alloc())?;
    let image = image_of(bytes.as_slice());
    refuse_beginning(&rt, rt.alloc(), &image, 6)?;
    refuse_one_more(&rt, rt.alloc(), &image, "84 TrailingBytes")?;
    refuse_other_channel(&rt, rt.alloc(), &image)?;
    // An unsafe code: the first instruction loads the item.
    assert!(&rt; image.bytes.get(71) == Some(&1));
    refuse_rows(&rt, rt.alloc(), &image, "72=1: 90 CodeUnsafe 0")
}

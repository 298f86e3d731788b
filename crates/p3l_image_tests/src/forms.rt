// An image with every kind of module, instruction and process, each of its fields out of its range
// once. Its tree isn't lawful: nothing of that is looked at where an image is read.

use crate::small::refusal;
use p3l_base::{List, NoMemory};
use p3l_image::{ImageRefusal, decode, encode};
use std::alloc::Global;
use std::test::Fail;

// A field, and bytes of as many that are none for it; none where all are.
type Row = (&'static [u8], &'static [u8]);

// The bytes of the image that bytes spell; nothing where they spell none.
fn again(alloc: Global, bytes: &[u8]) -> Result<Option<List<u8>>, NoMemory> {
    match decode(alloc, bytes) {
        Ok(image) => Ok(Some(encode(alloc, &image)?)),
        Err(_) => Ok(None),
    }
}

const HEAD: [Row; 3] = [
    (b"P3LI", b""),
    (b"\x00\x00\x00\x02", b""),
    (b"\x00\x00\x04\x00", b"\x00\x00\x04\x01"),
];

// Seven modules, each with its kind, the length of its name, the name, and whether it has a rescue
// number: the first has -7, and only the second might have one too.
const MODULES: [Row; 30] = [
    (b"\x00\x00\x00\x07", b"\x00\x00\x00\x00"),
    (b"\x00", b"\x07"),
    (b"\x01", b"\x00"),
    (b"s", b"1"),
    (b"\x01", b"\x02"),
    (b"\xff\xff\xff\xff\xff\xff\xff\xf9", b""),
    (b"\x01", b"\xff"),
    (b"\x02", b"\x41"),
    (b"c_", b"c-"),
    (b"\x00", b"\x02"),
    (b"\x02", b""),
    (b"\x02", b""),
    (b"P1", b"\xc3\xa9"),
    (b"\x00", b"\x01"),
    (b"\x03", b""),
    (b"\x04", b""),
    (b"farM", b"farm"),
    (b"\x00", b"\x01"),
    (b"\x04", b""),
    (b"\x03", b""),
    (b"_Zz", b"out"),
    (b"\x00", b"\x01"),
    (b"\x05", b""),
    (b"\x01", b""),
    (b"a", b"@"),
    (b"\x00", b"\x01"),
    (b"\x06", b""),
    (b"\x01", b""),
    (b"Z", b"["),
    (b"\x00", b"\xff"),
];

// A node of each module: its module, its words, the numbers of its form, and its parts.
const NODES: [Row; 56] = [
    (b"\x00\x00\x00\x07", b"\x00\x00\x00\x81"),
    (b"\x00\x00\x00\x00", b"\x00\x00\x00\x07"),
    (b"\x00\x00\x00\x01", b"\x00\x00\x00\x00"),
    (b"\x00\x01\x00\x00", b"\x00\x01\x00\x01"),
    (b"\x00\x00\x00\x00", b""),
    // A comp.
    (b"\x00\x00\x00\x01", b""),
    (b"\x00\x01\x00\x00", b"\x00\x01\x00\x01"),
    (b"\x00\x00\x00\x01", b"\x00\x00\x00\x00"),
    (b"\x00\x00\x00\x01", b""),
    (b"\x00\x00\x00\x06", b"\x00\x00\x00\x07"),
    // A pipe.
    (b"\x00\x00\x00\x02", b""),
    (b"\x00\x00\x00\x01", b""),
    (b"\x00\x00\x00\x01", b""),
    (b"\x00\x00\x00\x02", b""),
    (b"\x00\x00\x00\x00", b""),
    (b"\x00\x00\x00\x01", b"\xff\xff\xff\xff"),
    // A farm with a clause.
    (b"\x00\x00\x00\x03", b""),
    (b"\x00\x00\x00\x01", b""),
    (b"\x00\x00\x00\x01", b""),
    (b"\x00\x00\x02\x00", b"\x00\x00\x02\x01"),
    (b"\x00\x00\x00\x00", b""),
    // A map with no clause, one in slice of three sizes and one out slice of none.
    (b"\x00\x00\x00\x04", b""),
    (b"\x00\x00\x00\x01", b""),
    (b"\x00\x00\x00\x01", b""),
    (b"\x00\x00\x00\x00", b"\x00\x00\x02\x01"),
    (b"\x00\x00\x00\x01", b"\x00\x00\x00\x00"),
    (b"\x00\x01\x00\x00", b"\x00\x01\x00\x01"),
    (b"\x00\x00\x00\x01", b""),
    (b"\x00\x00\xff\xff", b"\x00\x01\x00\x00"),
    (b"\x03", b"\x04"),
    (b"\x00\x00\x00\x01", b"\x00\x00\x00\x00"),
    (b"\x00", b"\x03"),
    (b"\x00\x01\x00\x00", b"\x00\x01\x00\x01"),
    (b"\x01", b"\x03"),
    (b"\x00\x00\x00\x02", b""),
    (b"\x02", b"\xff"),
    (b"\x00\x00\x00\x01", b""),
    (b"\x00\x00\x00\x00", b""),
    (b"\x00", b""),
    (b"\x00\x00\x00\x00", b""),
    // A reduce.
    (b"\x00\x00\x00\x05", b""),
    (b"\x00\x00\x00\x01", b""),
    (b"\x00\x00\x00\x01", b""),
    (b"\x00\x00\x00\x04", b"\x00\x00\x02\x01"),
    (b"\x00\x01\x00\x00", b"\x00\x01\x00\x01"),
    (b"\x00\x00\x00\x01", b"\x00\x00\x00\x00"),
    (b"\x00\x00\x00\x00", b""),
    // A loop.
    (b"\x00\x00\x00\x06", b""),
    (b"\x00\x00\x00\x01", b""),
    (b"\x00\x00\x00\x01", b""),
    (b"\x00\x01\x00\x00", b"\x00\x01\x00\x01"),
    (b"\x00\x00\x04\x00", b"\x00\x00\x04\x01"),
    (b"\x00\x00\x00\x00", b""),
    // Two counts.
    (b"\x00\x00\x00\x02", b""),
    (b"\x00\x00\x00\x01", b"\x00\x00\x00\x00"),
    (b"\x00\x00\x02\x00", b"\x00\x00\x02\x01"),
];

// A code with an instruction of each kind; its numbers may be any.
const CODES: [Row; 33] = [
    (b"\x00\x00\x00\x01", b""),
    (b"\x00\x00\x00\x00", b""),
    (b"\xff\xff\xff\xff", b""),
    (b"\x00\x00\x00\x00", b""),
    (b"\x00\x00\x00\x00", b""),
    (b"\x00\x00\x00\x0e", b""),
    (b"\x00", b"\x0d"),
    (b"\xff\xff\xff\xff\xff\xff\xff\xfe", b""),
    (b"\x01", b""),
    (b"\x00\x00\x00\x11", b""),
    (b"\x02", b""),
    (b"\x00\x00\x00\x12", b""),
    (b"\x03", b""),
    (b"\x00\x00\x00\x13", b""),
    (b"\x04", b""),
    (b"\x00\x00\x00\x14", b""),
    (b"\x00\x00\x00\x15", b""),
    (b"\x05", b""),
    (b"\x00\x00\x00\x16", b""),
    (b"\x00\x00\x00\x17", b""),
    (b"\x06", b""),
    (b"\x02", b"\x03"),
    (b"\x07", b""),
    (b"\x11", b"\x12"),
    (b"\x08", b""),
    (b"\x00\x00\x00\x18", b""),
    (b"\x09", b""),
    (b"\x00\x00\x00\x19", b""),
    (b"\x0a", b""),
    (b"\x00\x00\x00\x1a", b""),
    (b"\x0b", b""),
    (b"\x0b", b""),
    (b"\x0c", b"\xff"),
];

// Two channels, and two processes.
const NET: [Row; 18] = [
    (b"\x00\x00\x00\x02", b""),
    (b"\x00\x00\x04\x00", b"\x00\x00\x04\x01"),
    (b"\x00\x00\x04\x00", b"\x00\x00\x04\x01"),
    (b"\x00\x00\x00\x01", b"\x00\x00\x00\x00"),
    (b"\x00\x00\x00\x00", b"\x00\x00\x00\x02"),
    (b"\x00\x00\x00\x02", b""),
    (b"\x0b", b"\x0c"),
    (b"\x00\x00\x00\x06", b"\x00\x00\x00\x07"),
    (b"\xff\xff\xff\xff", b""),
    (b"\x00\x00\x00\x01", b""),
    (b"\x00\x00\x00\x01", b"\x00\x00\x00\x02"),
    (b"\x00\x00\x00\x01", b""),
    (b"\x00\x00\x00\x00", b"\xff\xff\xff\xff"),
    (b"\x08", b""),
    (b"\x00\x00\x00\x00", b""),
    (b"\x00\x00\x00\x00", b""),
    (b"\x00\x00\x00\x00", b""),
    (b"\x00\x00\x00\x00", b""),
];

const SECTIONS: [&[Row]; 5] = [&HEAD, &MODULES, &NODES, &CODES, &NET];

#[test]
fn each_field_has_its_range(rt: HostRuntime) -> Result<(), Fail> {
    let mut bytes = Vec::new(rt.alloc());
    for section in SECTIONS {
        for (right, wrong) in section {
            let place = bytes.len();
            if !wrong.is_empty() {
                bytes.extend_from_slice(wrong)?;
                let found = refusal(rt.alloc(), &bytes);
                assert_eq!(rt;
                    found,
                    Some(ImageRefusal::BadField(place as u64)),
                    "{place}"
                );
                bytes.truncate(place);
            }
            bytes.extend_from_slice(right)?;
        }
    }
    let written = again(rt.alloc(), &bytes)?.ok_or("the bytes are an image")?;
    assert_eq!(rt; written.as_slice(), bytes.as_slice());
    Ok(())
}

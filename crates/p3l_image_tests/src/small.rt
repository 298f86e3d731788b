// The image of one `seq` module, and what is reported of its damages.

use p3l_ast::BinOp;
use p3l_code::Instr;
use p3l_firing::{Chan, Proc, ProcKind};
use p3l_image::{Image, ImageRefusal, decode};
use p3l_skel::ModuleKind;
use std::alloc::Global;
use std::test::Fail;

/// The number of fields of the image.
pub const COUNT: usize = 58;

/// The fields of the image of a `seq` module `main` that makes `x * 2 + 1` of a word `x`.
pub const FIELDS: [&[u8]; COUNT] = [
    // The magic number, the version, the capacity.
    b"P3LI",
    b"\x00\x00\x00\x02",
    b"\x00\x00\x00\x04",
    // One module: `seq`, with a name of 4 bytes, and no rescue number.
    b"\x00\x00\x00\x01",
    b"\x00",
    b"\x04",
    b"main",
    b"\x00",
    // One node: its module, 1 word in, 1 word out, no parts.
    b"\x00\x00\x00\x01",
    b"\x00\x00\x00\x00",
    b"\x00\x00\x00\x01",
    b"\x00\x00\x00\x01",
    b"\x00\x00\x00\x00",
    // No counts.
    b"\x00\x00\x00\x00",
    // One code: a budget of 1,000,000, 1 word in, 1 word out, 2 words of memory, 7 instructions.
    b"\x00\x00\x00\x01",
    b"\x00\x0f\x42\x40",
    b"\x00\x00\x00\x01",
    b"\x00\x00\x00\x01",
    b"\x00\x00\x00\x02",
    b"\x00\x00\x00\x07",
    // Load 0, Push 2, Mul, Push 1, Add, Store 1, End.
    b"\x01",
    b"\x00\x00\x00\x00",
    b"\x00",
    b"\x00\x00\x00\x00\x00\x00\x00\x02",
    b"\x07",
    b"\x0f",
    b"\x00",
    b"\x00\x00\x00\x00\x00\x00\x00\x01",
    b"\x07",
    b"\x0d",
    b"\x02",
    b"\x00\x00\x00\x01",
    b"\x0c",
    // Two channels of capacity 4 without credits.
    b"\x00\x00\x00\x02",
    b"\x00\x00\x00\x04",
    b"\x00\x00\x00\x00",
    b"\x00\x00\x00\x04",
    b"\x00\x00\x00\x00",
    // Three processes, each with its kind, its node, its segment, and the channels that it reads
    // and writes.
    b"\x00\x00\x00\x03",
    // The source writes channel 0.
    b"\x00",
    b"\x00\x00\x00\x00",
    b"\x00\x00\x00\x00",
    b"\x00\x00\x00\x00",
    b"\x00\x00\x00\x01",
    b"\x00\x00\x00\x00",
    // The sink reads channel 1.
    b"\x01",
    b"\x00\x00\x00\x00",
    b"\x00\x00\x00\x00",
    b"\x00\x00\x00\x01",
    b"\x00\x00\x00\x01",
    b"\x00\x00\x00\x00",
    // The unit reads channel 0 and writes channel 1.
    b"\x02",
    b"\x00\x00\x00\x00",
    b"\x00\x00\x00\x00",
    b"\x00\x00\x00\x01",
    b"\x00\x00\x00\x00",
    b"\x00\x00\x00\x01",
    b"\x00\x00\x00\x01",
];

/// Why bytes are no image; nothing where they are one.
pub fn refusal(alloc: Global, bytes: &[u8]) -> Option<ImageRefusal> {
    decode(alloc, bytes).err()
}

// Returns true exactly if bytes are reported to end in the field at a place.
fn is_short(alloc: Global, bytes: &[u8], place: usize) -> bool {
    refusal(alloc, bytes) == Some(ImageRefusal::Short(place as u64))
}

// Returns true exactly if the tree of an image is that of the fields.
fn has_tree(image: &Image) -> bool {
    match (image.tree.modules.as_slice(), image.tree.nodes.as_slice()) {
        ([info], [node]) => info.kind == ModuleKind::Seq
            && info.name.as_str() == "main"
            && info.rescue.is_none()
            && node.form.kind() == ModuleKind::Seq
            && (node.module, node.ins, node.outs) == (0, 1, 1)
            && node.parts.is_empty(),
        _ => false,
    }
}

// Returns true exactly if the code of an image is that of the fields.
fn has_code(image: &Image) -> bool {
    match image.codes.as_slice() {
        [code] => (code.budget, code.ins, code.outs, code.memory) == (1_000_000, 1, 1, 2)
            && code.instrs.as_slice()
                == [
                    Instr::Load(0),
                    Instr::Push(2),
                    Instr::Binary(BinOp::Mul),
                    Instr::Push(1),
                    Instr::Binary(BinOp::Add),
                    Instr::Store(1),
                    Instr::End,
                ]
                .as_slice(),
        _ => false,
    }
}

// Returns true exactly if a process is of this kind, and reads and writes these channels.
fn is_process(process: &Proc, kind: ProcKind, ins: &[u32], outs: &[u32]) -> bool {
    process.kind == kind
        && (process.node, process.arg) == (0, 0)
        && process.ins.as_slice() == ins
        && process.outs.as_slice() == outs
}

/// Returns true exactly if the net of an image is that of the fields.
pub fn has_net(image: &Image) -> bool {
    let chan = Chan { cap: 4, credits: 0 };
    match image.net.procs.as_slice() {
        [source, sink, unit] => is_process(source, ProcKind::Source, &[], &[0])
            && is_process(sink, ProcKind::Sink, &[1], &[])
            && is_process(unit, ProcKind::Run, &[0], &[1])
            && image.net.chans.as_slice() == [chan, chan].as_slice(),
        _ => false,
    }
}

#[test]
fn an_image_is_read_and_written(rt: HostRuntime) -> Result<(), Fail> {
    let bytes = FIELDS.concat(rt.alloc())?;
    let image = decode(rt.alloc(), &bytes)
        .ok()
        .ok_or("the bytes are an image")?;
    assert_eq!(rt; (image.cap, image.counts.list.len()), (4, 0));
    assert!(rt; has_tree(&image));
    assert!(rt; has_code(&image));
    assert!(rt; has_net(&image));
    Ok(())
}

#[test]
fn an_image_cut_short_is_reported_at_its_field(rt: HostRuntime) -> Result<(), Fail> {
    let mut bytes = Vec::new(rt.alloc());
    for field in FIELDS {
        let place = bytes.len();
        for byte in field {
            assert!(rt; is_short(rt.alloc(), &bytes, place), "{place}");
            bytes.push(*byte)?;
        }
    }
    assert_eq!(rt; refusal(rt.alloc(), &bytes), None);
    bytes.push(0)?;
    assert_eq!(rt;
        refusal(rt.alloc(), &bytes),
        Some(ImageRefusal::TrailingBytes(195))
    );
    Ok(())
}

#[test]
fn another_magic_number_or_version_is_reported(rt: HostRuntime) {
    let alloc = rt.alloc();
    assert_eq!(rt; refusal(alloc, b"P3LJ"), Some(ImageRefusal::BadMagic));
    assert_eq!(rt; refusal(alloc, b"P3L"), Some(ImageRefusal::Short(0)));
    assert_eq!(rt;
        refusal(alloc, b"P3LI\x00\x00\x00\x03"),
        Some(ImageRefusal::Version(3))
    );
    assert_eq!(rt;
        refusal(alloc, b"P3LI\x00\x00\x00\x00\x00"),
        Some(ImageRefusal::Version(0))
    );
}

#[test]
fn a_count_takes_no_memory_by_itself(rt: HostRuntime) {
    let bytes = b"P3LI\x00\x00\x00\x02\x00\x00\x00\x04\xff\xff\xff\xff";
    assert_eq!(rt; refusal(rt.alloc(), bytes), Some(ImageRefusal::Short(16)));
}

// The objects in memory: pieces, room, and calls that fail.

use crate::lists::{is_read, list, takes};
use p3l_io::{FileFault, Files, MemFiles, MemSink, MemSource, PutFail, Sink, WriteFault};
use std::alloc::Global;
use std::test::Fail;

/// Returns true exactly if seven letters are taken in pieces of three, by takings of which two
/// fail.
fn gives_pieces(source: &mut MemSource) -> bool {
    let mut buf = [0u8; 4];
    takes(source, &mut buf, Some(3), b"abc\0")
        && takes(source, &mut buf, None, b"abc\0")
        && takes(source, &mut buf, Some(3), b"def\0")
        && takes(source, &mut buf, Some(1), b"gef\0")
        && takes(source, &mut buf, Some(0), b"gef\0")
        && takes(source, &mut buf, None, b"gef\0")
        && takes(source, &mut buf, Some(0), b"gef\0")
}

#[test]
fn a_source_gives_pieces_and_fails_by_number(rt: HostRuntime) -> Result<(), Fail> {
    let bytes = list(rt.alloc(), b"abcdefg".as_slice())?;
    let fails = list(rt.alloc(), [2, 6].as_slice())?;
    let mut source = MemSource::new(bytes, 3, fails);
    assert!(rt; gives_pieces(&mut source));
    assert!(rt; source.calls() == 7);
    Ok(())
}

/// Returns true exactly if a putting is done, or fails, and these bytes are in the sink after it.
fn puts(sink: &mut MemSink, piece: &[u8], done: bool, taken: &[u8]) -> bool {
    sink.put(piece).is_ok() == done && sink.taken() == taken
}

/// Returns true exactly if the second putting and the third fail, and the last bytes have no room.
fn has_room(sink: &mut MemSink) -> bool {
    puts(sink, b"ab", true, b"ab")
        && puts(sink, b"cd", false, b"abc")
        && puts(sink, b"ef", false, b"abcef")
        && puts(sink, b"ghi", true, b"abcefghi")
        && puts(sink, b"jkl", false, b"abcefghijk")
        && puts(sink, b"", true, b"abcefghijk")
}

#[test]
fn a_sink_puts_a_front_by_its_first_entry_and_has_room(rt: HostRuntime) -> Result<(), Fail> {
    let fails = [
        PutFail { call: 2, prefix: 1 },
        PutFail { call: 2, prefix: 3 },
        PutFail { call: 3, prefix: 9 },
    ];
    let fails = list(rt.alloc(), fails.as_slice())?;
    let mut sink = MemSink::new(rt.alloc(), 10, fails)?;
    assert!(rt; has_room(&mut sink));
    Ok(())
}

/// Returns true exactly if files answer these calls, of which the fourth and the sixth fail.
fn answers_calls(alloc: Global, files: &mut MemFiles) -> bool {
    is_read(alloc, files, "one", 3, Ok(b"abc"))
        && is_read(alloc, files, "one", 2, Err(FileFault::TooLong))
        && is_read(alloc, files, "two", 9, Err(FileFault::Failed))
        && files.write(alloc, "two", b"x") == Err(WriteFault::Failed)
        && files.write(alloc, "two", b"y").is_ok()
        && is_read(alloc, files, "one", 3, Err(FileFault::Failed))
        && files.write(alloc, "one", b"zz").is_ok()
}

/// Returns true exactly if files have these bytes after such calls.
fn has_what_was_written(files: &MemFiles) -> bool {
    files.get("one") == Some(b"zz".as_slice())
        && files.get("two") == Some(b"y".as_slice())
        && files.get("three").is_none()
}

#[test]
fn files_are_read_and_written_by_name(rt: HostRuntime) -> Result<(), Fail> {
    let fails = list(rt.alloc(), [4, 6].as_slice())?;
    let mut files = MemFiles::new(rt.alloc(), fails);
    files.add("one", b"abc")?;
    assert!(rt; answers_calls(rt.alloc(), &mut files));
    assert!(rt; has_what_was_written(&files));
    Ok(())
}

// What each public call of `tpf_base` and `memory_outside` does with ample memory.

use crate::fails::Fails;
use crate::long::long_bytes;
use memory_outside::MemShelf;
use std::alloc::{AllocError, Global};
use std::test::Fail;
use tpf_base::{
    Bytes, Drain, Failing, Fault, FileFault, MemSink, Shelf, Sink, Text, read_file, write_all,
};

/// Which calls fail, and a mark for each of six writes of one byte: a dot for one that took it, and F for one that
/// failed.
static WRITES: [(Fails, &str); 8] = [
    (Fails::Never, "......"),
    (Fails::Every(2), ".F.F.F"),
    (Fails::Every(1), "FFFFFF"),
    (Fails::Every(0), "......"),
    (Fails::At(&[1, 4]), "F..F.."),
    (Fails::AfterBytes(3), "...FFF"),
    (Fails::AfterBytes(0), "FFFFFF"),
    (Fails::Dials(1), "......"),
];

/// The marks of six writes.
fn marks_of(alloc: Global, fails: Fails) -> Result<[u8; 6], AllocError> {
    let mut sink = MemSink::new(alloc, fails.failing(alloc)?);
    let mut marks = [0u8; 6];
    for i in 0..6 {
        marks[i] = match sink.write(b"x") {
            Ok(_) => b'.',
            Err(Fault::Failed) => b'F',
            Err(Fault::OutOfMemory) => b'M',
        };
    }
    Ok(marks)
}

#[test]
fn calls_fail_by_their_number(rt: HostRuntime) -> Result<(), Fail> {
    for (fails, want) in &WRITES {
        let marks = marks_of(rt.alloc(), *fails)?;
        assert_eq!(rt; marks.as_slice(), want.as_bytes());
    }
    Ok(())
}

#[test]
fn a_sink_takes_all_bytes(rt: HostRuntime) {
    let mut whole = MemSink::new(rt.alloc(), Failing::Never);
    assert_eq!(rt; write_all(&mut whole, b"abc"), Ok(()));
    assert_eq!(rt; write_all(&mut whole, b"def"), Ok(()));
    assert_eq!(rt; whole.taken(), b"abcdef".as_slice());
}

#[test]
fn a_sink_takes_bytes_until_it_fails(rt: HostRuntime) {
    let mut cut = MemSink::new(rt.alloc(), Failing::AfterBytes(4));
    assert_eq!(rt; write_all(&mut cut, b"abcdef"), Err(Fault::Failed));
    assert_eq!(rt; cut.taken(), b"abcd".as_slice());
}

#[test]
fn a_drain_counts_what_it_takes(rt: HostRuntime) {
    let mut drain = Drain::new();
    let taken = [
        write_all(&mut drain, b""),
        write_all(&mut drain, b"a"),
        write_all(&mut drain, b"bcd"),
    ];
    assert_eq!(rt; taken, [Ok(()); 3]);
    assert_eq!(rt; drain.bytes(), 4);
}

fn add_file(
    alloc: Global,
    name: &str,
    bytes: &[u8],
    files: &mut Vec<(Text, Bytes)>,
) -> Result<(), Fail> {
    let name = Text::copy(alloc, name)?;
    let bytes = Bytes::copy(alloc, bytes)?;
    Ok(files.push((name, bytes))?)
}

/// A shelf with the files `empty`, `a` and `long`, the last with these bytes.
fn shelf(alloc: Global, long: &[u8], fails: Fails) -> Result<MemShelf, Fail> {
    let mut files = Vec::new(alloc);
    for (name, bytes) in [("empty", b"".as_slice()), ("a", b"abc"), ("long", long)] {
        add_file(alloc, name, bytes, &mut files)?;
    }
    let failing = fails.failing(alloc)?;
    Ok(MemShelf::new(alloc, files, failing))
}

/// How many bytes of a file of the shelf are read.
fn length_read(
    alloc: Global,
    fails: Fails,
    name: &str,
    most: usize,
) -> Result<Result<usize, FileFault>, Fail> {
    let long = long_bytes(alloc, 200_000)?;
    let mut files = shelf(alloc, long.as_slice(), fails)?;
    Ok(read_file(alloc, &mut files, name, most).map(|bytes| bytes.len()))
}

/// Which calls fail, a file, how long it may be at most, and how many bytes are read, or why it is refused.
static FILES: [(Fails, &str, usize, Result<usize, FileFault>); 8] = [
    (Fails::Never, "empty", 0, Ok(0)),
    (Fails::Never, "a", 3, Ok(3)),
    (Fails::Never, "a", 2, Err(FileFault::TooLong)),
    (Fails::Never, "long", 200_000, Ok(200_000)),
    (Fails::Never, "long", 199_999, Err(FileFault::TooLong)),
    (Fails::Never, "b", 9, Err(FileFault::Failed)),
    (Fails::At(&[3]), "a", 9, Err(FileFault::Failed)),
    (Fails::AfterBytes(2), "a", 9, Err(FileFault::Failed)),
];

#[test]
fn a_file_is_read_whole_or_refused(rt: HostRuntime) -> Result<(), Fail> {
    for (fails, name, most, want) in &FILES {
        let got = length_read(rt.alloc(), *fails, name, *most)?;
        assert_eq!(rt; got, *want, "at most {most} bytes");
    }
    Ok(())
}

#[test]
fn a_long_file_is_read_whole(rt: HostRuntime) -> Result<(), Fail> {
    let long = long_bytes(rt.alloc(), 200_000)?;
    let mut files = shelf(rt.alloc(), long.as_slice(), Fails::Never)?;
    assert!(rt; read_file(rt.alloc(), &mut files, "long", 200_000) == Ok(long));
    Ok(())
}

#[test]
fn a_file_is_found_by_its_name(rt: HostRuntime) -> Result<(), Fail> {
    let alloc = rt.alloc();
    let mut files = Vec::new(alloc);
    files.push((Text::copy(alloc, "a.nq")?, Bytes::copy(alloc, b"abc")?))?;
    let mut shelf = MemShelf::new(alloc, files, Failing::Never);
    let bytes = read_file(alloc, &mut shelf, "a.nq", 65536);
    assert_eq!(rt; bytes, Ok(Vec::from_slice(alloc, b"abc")?));
    Ok(())
}

/// Whether two finds of a file differ, how many bytes each read brings, two behind the first find and
/// one behind the second that come after it, and what the second find's read and the last byte are.
fn found_twice(files: &mut MemShelf) -> Result<(bool, [usize; 4], [u8; 2], u8), Fault> {
    let mut to = [0u8; 2];
    let first = files.find("a")?;
    let before = files.read(first, &mut to)?;
    let second = files.find("a")?;
    let anew = files.read(second, &mut to)?;
    let front = to;
    let behind = files.read(first, &mut to)?;
    let end = files.read(first, &mut to)?;
    Ok((first != second, [before, anew, behind, end], front, to[0]))
}

#[test]
fn a_second_find_begins_at_the_front(rt: HostRuntime) -> Result<(), Fail> {
    let mut files = shelf(rt.alloc(), b"", Fails::Never)?;
    assert_eq!(rt;
        found_twice(&mut files),
        Ok((true, [2, 2, 1, 0], *b"ab", b'c'))
    );
    Ok(())
}

/// Whether two copies of a text are the same, and each has its characters.
fn is_kept(alloc: Global, text: &str) -> Result<bool, Fail> {
    let one = Text::copy(alloc, text)?;
    let other = Text::from_string(String::from_str(alloc, text)?);
    Ok(one == other && one.as_str() == text && one.into_string().as_str() == text)
}

fn is_less(alloc: Global, first: &str, second: &str) -> Result<bool, Fail> {
    let first = Text::copy(alloc, first)?;
    Ok(first < Text::copy(alloc, second)?)
}

/// Whether a copy has the bytes and is not the same as other bytes.
fn are_kept(alloc: Global, bytes: &[u8], other: &[u8]) -> Result<bool, Fail> {
    let copy = Bytes::copy(alloc, bytes)?;
    let differs = copy != Bytes::copy(alloc, other)?;
    Ok(differs && copy.as_slice() == bytes && copy.into_vec().as_slice() == bytes)
}

#[test]
fn texts_and_bytes_are_copied_and_compared(rt: HostRuntime) -> Result<(), Fail> {
    let alloc = rt.alloc();
    let got = [
        is_kept(alloc, "aé")?,
        is_less(alloc, "ab", "b")?,
        is_less(alloc, "a", "aa")?,
        are_kept(alloc, b"\x00\xff", b"\x00")?,
    ];
    assert_eq!(rt; got, [true; 4]);
    Ok(())
}

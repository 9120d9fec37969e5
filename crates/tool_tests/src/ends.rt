use byte_ends::{
    Failed, MemShelf, MemSink, OsShelf, OsSink, ReadStop, Shelf, Sink, WholeStop, WriteFault,
    put_whole, read_upto, read_whole, write_whole,
};
use std::alloc::Global;
use std::process::Abort;
use std::test::Fail;
use std::{env, fs, process};

// A shelf with one file, whose calls of these numbers fail.
fn shelf_with(
    alloc: Global,
    chunk: usize,
    failing: &[u64],
    bytes: &[u8],
) -> Result<MemShelf, Fail> {
    let failing = Vec::from_slice(alloc, failing)?;
    let mut shelf = MemShelf::new(alloc, chunk.max(1), failing);
    shelf.put_file("a", bytes)?;
    Ok(shelf)
}

#[test]
fn mem_shelf_reads(rt: HostRuntime) -> Result<(), Fail> {
    let mut shelf = shelf_with(rt.alloc(), 3, &[3], b"hello")?;
    let cases: [(&str, u64, Result<&[u8], Failed>); 7] = [
        ("a", 0, Ok(b"hel")),
        ("a", 3, Ok(b"lo")),
        ("a", 5, Ok(b"")),
        ("a", 0, Err(Failed)),
        ("missing", 0, Err(Failed)),
        ("a", u64::MAX, Ok(b"")),
        ("a", 1, Ok(b"ell")),
    ];
    for (name, at, want) in cases {
        let mut into = [0; 8];
        let given = shelf.read(name, at, &mut into);
        assert_eq!(rt; given, want.map(|bytes| bytes.len()), "at {at} of {name}");
        if let (Ok(count), Ok(bytes)) = (given, want) {
            assert_eq!(rt; into.get(..count), Some(bytes), "at {at} of {name}");
        }
    }
    Ok(())
}

// A step on a shelf, and what it answers: how many bytes it took.
#[derive(Clone, Copy)]
enum Step {
    Create(&'static str),
    Append(&'static str, &'static [u8]),
    Reserve(&'static str, usize),
    Put(&'static str, &'static [u8]),
}

fn take_step(shelf: &mut MemShelf, step: Step) -> Result<usize, Failed> {
    match step {
        Step::Create(name) => shelf.create(name).map(|()| 0),
        Step::Append(name, piece) => shelf.append(name, piece),
        Step::Reserve(name, room) => shelf.reserve(name, room).map(|()| 0).map_err(|_| Failed),
        Step::Put(name, bytes) => shelf.put_file(name, bytes).map(|()| 0).map_err(|_| Failed),
    }
}

#[test]
fn mem_shelf_writes(rt: HostRuntime) -> Result<(), Fail> {
    let mut shelf = shelf_with(rt.alloc(), 3, &[5], b"hello")?;
    let steps: [(Step, Result<usize, Failed>); 16] = [
        (Step::Reserve("b", 4), Ok(0)),
        (Step::Append("b", b"no file yet"), Err(Failed)),
        (Step::Create("neither put nor reserved"), Err(Failed)),
        (Step::Create("b"), Ok(0)),
        (Step::Append("b", b"a piece"), Ok(3)),
        (Step::Append("b", b"room for one"), Ok(1)),
        (Step::Append("b", b""), Err(Failed)),
        (Step::Append("b", b"no room"), Err(Failed)),
        (Step::Append("b", b""), Ok(0)),
        (Step::Create("a"), Ok(0)),
        (Step::Append("a", b"again"), Ok(3)),
        (Step::Reserve("a", 2), Ok(0)),
        (Step::Append("a", b"in and in"), Ok(2)),
        (Step::Put("c", b"put"), Ok(0)),
        (Step::Put("d", b"first"), Ok(0)),
        (Step::Put("d", b"and then longer"), Ok(0)),
    ];
    for (step, want) in steps {
        assert_eq!(rt; take_step(&mut shelf, step), want);
    }
    let files: [(&str, Option<&[u8]>); 5] = [
        ("a", Some(b"again")),
        ("b", Some(b"a pr")),
        ("c", Some(b"put")),
        ("d", Some(b"and then longer")),
        ("neither put nor reserved", None),
    ];
    for (name, want) in files {
        assert_eq!(rt; shelf.file(name), want, "file {name}");
    }
    Ok(())
}

#[test]
fn reads_whole_files(rt: HostRuntime) -> Result<(), Fail> {
    let long = vec![in rt.alloc(); 7; 10_000]?;
    let cases: [(&[u8], usize, &[u64], u64, Option<WholeStop>); 10] = [
        (b"hello", 1, &[], 5, None),
        (b"hello", 3, &[], 6, None),
        (b"hello", 99, &[], u64::MAX, None),
        (b"hello", 3, &[], 4, Some(WholeStop::TooLong)),
        (b"hello", 1, &[], 0, Some(WholeStop::TooLong)),
        (b"", 1, &[], 0, None),
        (b"hello", 3, &[1], 5, Some(WholeStop::ReadFault)),
        (b"hello", 3, &[2], 5, Some(WholeStop::ReadFault)),
        (&long, 9_999, &[], 10_000, None),
        (&long, 9_999, &[], 9_999, Some(WholeStop::TooLong)),
    ];
    for (bytes, chunk, failing, limit, stop) in cases {
        let mut shelf = shelf_with(rt.alloc(), chunk, failing, bytes)?;
        match read_whole(rt.alloc(), &mut shelf, "a", limit) {
            Ok(whole) => {
                assert_eq!(rt; None, stop, "limit {limit}");
                assert_eq!(rt; whole.as_slice(), bytes, "limit {limit}");
            }
            Err(other) => assert_eq!(rt; Some(other), stop, "limit {limit}"),
        }
    }
    let mut shelf = shelf_with(rt.alloc(), 3, &[], b"")?;
    let missing = read_whole(rt.alloc(), &mut shelf, "b", 5).err();
    assert_eq!(rt; missing, Some(WholeStop::ReadFault));
    Ok(())
}

#[test]
fn reads_files_up_to_a_limit(rt: HostRuntime) -> Result<(), Fail> {
    let long = vec![in rt.alloc(); 7; 70_000]?;
    let cases: [(&[u8], usize, &[u64], u64, Result<&[u8], ReadStop>); 13] = [
        (b"hello", 1, &[], 6, Ok(b"hello")),
        (b"hello", 7, &[], u64::MAX, Ok(b"hello")),
        (b"hello", 1, &[], 5, Ok(b"hello")),
        (b"hello", 7, &[1], 5, Ok(b"hello")),
        (b"hello", 1, &[4], 4, Ok(b"hell")),
        (b"hello", 7, &[], 1, Ok(b"h")),
        (b"hello", 7, &[0], 0, Ok(b"")),
        (b"", 1, &[], 3, Ok(b"")),
        (b"hello", 7, &[0], 5, Err(ReadStop::ReadFault)),
        (b"hello", 1, &[3], 5, Err(ReadStop::ReadFault)),
        (b"hello", 7, &[1], 6, Err(ReadStop::ReadFault)),
        (&long, 70_000, &[], 70_001, Ok(long.as_slice())),
        (&long, 70_000, &[], 65_537, Ok(&long[..65_537])),
    ];
    for (bytes, chunk, failing, limit, want) in cases {
        let mut shelf = shelf_with(rt.alloc(), chunk, failing, bytes)?;
        match read_upto(rt.alloc(), &mut shelf, "a", limit) {
            Ok(first) => assert_eq!(rt; Ok(first.as_slice()), want, "limit {limit}"),
            Err(stop) => assert_eq!(rt; Err(stop), want, "limit {limit}"),
        }
    }
    Ok(())
}

#[test]
fn puts_whole_pieces(rt: HostRuntime) -> Result<(), Fail> {
    let cases: [(usize, &[u64], usize, Result<(), WriteFault>, &[u8]); 6] = [
        (3, &[], 11, Ok(()), b"hello world"),
        (99, &[], 99, Ok(()), b"hello world"),
        (3, &[0], 11, Err(WriteFault), b""),
        (3, &[2], 11, Err(WriteFault), b"hello "),
        (3, &[9], 11, Ok(()), b"hello world"),
        (3, &[], 4, Err(WriteFault), b"hell"),
    ];
    for (chunk, failing, room, want, bytes) in cases {
        let failing = Vec::from_slice(rt.alloc(), failing)?;
        let mut sink = MemSink::new(rt.alloc(), chunk.max(1), failing, room)?;
        assert_eq!(rt; put_whole(&mut sink, b"hello world"), want, "room {room}");
        assert_eq!(rt; sink.bytes(), bytes, "room {room}");
    }
    Ok(())
}

#[test]
fn writes_whole_pieces(rt: HostRuntime) -> Result<(), Fail> {
    let cases: [(usize, &[u64], usize, Result<(), WriteFault>, &[u8]); 8] = [
        (1, &[], 13, Ok(()), b"a hello world"),
        (7, &[], 13, Ok(()), b"a hello world"),
        (4_096, &[], 99, Ok(()), b"a hello world"),
        (7, &[2], 13, Ok(()), b"a hello world"),
        (7, &[0], 13, Err(WriteFault), b"a "),
        (1, &[3], 13, Err(WriteFault), b"a hel"),
        (7, &[1], 13, Err(WriteFault), b"a hello w"),
        (4_096, &[], 6, Err(WriteFault), b"a hell"),
    ];
    for (chunk, failing, room, want, bytes) in cases {
        let mut shelf = shelf_with(rt.alloc(), chunk, failing, b"a ")?;
        shelf.reserve("a", room)?;
        assert_eq!(rt;
            write_whole(&mut shelf, "a", b"hello world"),
            want,
            "room {room}"
        );
        assert_eq!(rt; shelf.file("a"), Some(bytes), "room {room}");
    }
    let mut shelf = shelf_with(rt.alloc(), 7, &[0], b"")?;
    assert_eq!(rt; write_whole(&mut shelf, "missing", b""), Ok(()));
    assert_eq!(rt; write_whole(&mut shelf, "missing", b"x"), Err(WriteFault));
    Ok(())
}

#[test]
fn mem_sink_takes_pieces(rt: HostRuntime) -> Result<(), Fail> {
    let failing = Vec::from_slice(rt.alloc(), &[1])?;
    let mut sink = MemSink::new(rt.alloc(), 2, failing, 3)?;
    let pieces: [(&[u8], Result<usize, Failed>); 5] = [
        (b"abc", Ok(2)),
        (b"a listed call", Err(Failed)),
        (b"cd", Ok(1)),
        (b"no room", Err(Failed)),
        (b"", Ok(0)),
    ];
    for (piece, want) in pieces {
        assert_eq!(rt; sink.put(piece), want);
    }
    assert_eq!(rt; sink.bytes(), b"abc".as_slice());
    Ok(())
}

// Reads at places of a real file, and compares what is given.
fn read_places(rt: &impl Abort, shelf: &mut impl Shelf, name: &str, places: &[(u64, &[u8])]) {
    for (at, want) in places {
        let mut into = [0; 4];
        let given = shelf.read(name, *at, &mut into);
        assert_eq!(rt; given, Ok(want.len()), "at {at}");
        assert_eq!(rt; into.get(..want.len()), Some(*want), "at {at}");
    }
}

#[test]
fn os_shelf_over_real_files(rt: HostRuntime) -> Result<(), Fail> {
    let id = process::id(rt.process());
    let file_name = format!(in rt.alloc(); "byte_ends_{id}")?;
    let path = env::temp_dir(&rt)?.join(rt.alloc(), file_name.as_str())?;
    let name = path.to_str().ok_or("a path that is text")?;
    let mut shelf = OsShelf::new(&rt);
    let missing = read_whole(rt.alloc(), &mut shelf, name, 11).err();
    assert_eq!(rt; missing, Some(WholeStop::ReadFault));
    assert_eq!(rt; shelf.append(name, b"x"), Err(Failed), "a missing file");
    assert_eq!(rt; shelf.create("no/such/folder"), Err(Failed));
    assert_eq!(rt; shelf.create(name), Ok(()));
    for piece in [b"hello".as_slice(), b" world", b""] {
        assert_eq!(rt; shelf.append(name, piece), Ok(piece.len()));
    }
    read_places(
        &rt,
        &mut shelf,
        name,
        &[(0, b"hell"), (4, b"o wo"), (9, b"ld"), (11, b"")],
    );
    let whole = read_whole(rt.alloc(), &mut shelf, name, 11)?;
    assert_eq!(rt; whole.as_slice(), b"hello world".as_slice());
    assert_eq!(rt; shelf.create(name), Ok(()));
    read_places(&rt, &mut shelf, name, &[(0, b"")]);
    fs::remove_file(&rt, name)?;
    Ok(())
}

#[test]
fn os_sink_over_standard_output(rt: HostRuntime) -> Result<(), Fail> {
    let mut sink = OsSink::new(&rt);
    assert_eq!(rt; sink.put(b""), Ok(0));
    assert_eq!(rt; put_whole(&mut sink, b"put whole\n"), Ok(()));
    Ok(())
}

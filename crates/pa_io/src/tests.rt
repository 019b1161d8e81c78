use crate::{
    Calls, DiskShelf, Failed, MemFile, MemFiles, MemShelf, MemSink, MemSource, Shelf, ShelfFault,
    Sink, Source, StdinSource, StdoutSink, SureShelf, SureSink, SureSource, read_all, write_all,
};
use pa_num::{Bytes, Name};
use std::alloc::{AllocError, Global};
use std::fs;
use std::process::Abort;
use std::test::Fail;

fn file(alloc: Global, name: &[u8], bytes: &[u8]) -> Result<MemFile, AllocError> {
    let name = Name::from_slice(alloc, name)?;
    let bytes = Bytes::from_slice(alloc, bytes)?;
    Ok(MemFile::new(name, bytes))
}

// Three files, two of them of one name.
fn files(alloc: Global) -> Result<MemFiles, AllocError> {
    let mut files = MemFiles::new(alloc);
    files.push(file(alloc, b"a", b"one")?)?;
    files.push(file(alloc, b"b", b"two.")?)?;
    files.push(file(alloc, b"a", b"other")?)?;
    Ok(files)
}

// What a call of a shelf is to answer: the name, the limit, and the bytes or the fault.
type Row<'a> = (&'a str, u64, Result<&'a [u8], ShelfFault>);

fn reads<H: Shelf>(rt: &impl Abort, alloc: Global, shelf: &mut H, rows: &[Row]) {
    for (name, limit, wanted) in rows {
        match (shelf.read(alloc, name, *limit), wanted) {
            (Ok(bytes), Ok(wanted)) => assert_eq!(rt; bytes.as_slice(), *wanted),
            (answer, wanted) => assert_eq!(rt; answer.err(), wanted.err()),
        }
    }
}

#[test]
fn a_shelf_fails_as_listed(rt: HostRuntime) -> Result<(), Fail> {
    let fails = Calls::from_slice(rt.alloc(), &[3])?;
    let mut shelf = MemShelf::new(files(rt.alloc())?, 0, fails, 0, None);
    let rows: [Row; 6] = [
        ("a", 3, Ok(b"one")),
        ("a", 2, Err(ShelfFault::Long)),
        ("a", 3, Err(ShelfFault::Failed)),
        ("c", 3, Err(ShelfFault::Failed)),
        ("b", 4, Ok(b"two.")),
        ("b", 3, Err(ShelfFault::Long)),
    ];
    reads(&rt, rt.alloc(), &mut shelf, &rows);
    assert_eq!(rt; shelf.calls, 6);
    assert_eq!(rt; shelf.missing, 1);
    let failed = shelf.failed.ok_or("a name")?;
    assert_eq!(rt; failed.as_slice(), b"c".as_slice());
    Ok(())
}

#[test]
fn a_sure_shelf_has_every_file(rt: HostRuntime) -> Result<(), Fail> {
    let mut shelf = SureShelf::new(files(rt.alloc())?);
    let rows: [Row; 3] = [
        ("a", 3, Ok(b"one")),
        ("a", 2, Err(ShelfFault::Long)),
        ("c", 0, Ok(b"")),
    ];
    reads(&rt, rt.alloc(), &mut shelf, &rows);
    Ok(())
}

#[test]
fn a_source_fails_as_listed(rt: HostRuntime) -> Result<(), Fail> {
    let left = Bytes::from_slice(rt.alloc(), b"hello")?;
    let mut source = MemSource::new(left, 0, Calls::from_slice(rt.alloc(), &[2])?);
    let mut buffer = [b'.'; 2];
    let rows = [
        (Ok(2), b"he"),
        (Err(Failed), b"he"),
        (Ok(2), b"ll"),
        (Ok(1), b"ol"),
        (Ok(0), b"ol"),
    ];
    for (count, bytes) in rows {
        assert_eq!(rt; source.read(&mut buffer), count);
        assert_eq!(rt; buffer, *bytes);
    }
    assert_eq!(rt; source.calls, 5);
    Ok(())
}

#[test]
fn a_sure_source_gives_all(rt: HostRuntime) -> Result<(), Fail> {
    let mut source = SureSource::new(Bytes::from_slice(rt.alloc(), b"abc")?);
    let mut buffer = [0; 2];
    for (count, bytes) in [(2, b"ab"), (1, b"cb"), (0, b"cb")] {
        assert_eq!(rt; source.read(&mut buffer), Ok(count));
        assert_eq!(rt; buffer, *bytes);
    }
    Ok(())
}

#[test]
fn all_of_a_source_is_read(rt: HostRuntime) -> Result<(), Fail> {
    let long = ShelfFault::Long;
    let rows: [(u64, u64, Result<usize, ShelfFault>, u64); 8] = [
        (70_000, 0, Ok(70_000), 3),
        (70_001, 0, Ok(70_000), 3),
        (69_999, 0, Err(long), 2),
        (65_536, 0, Err(long), 2),
        (0, 0, Err(long), 1),
        (70_000, 1, Err(ShelfFault::Failed), 1),
        (70_000, 3, Err(ShelfFault::Failed), 3),
        (70_000, 4, Ok(70_000), 3),
    ];
    for (limit, failing, wanted, calls) in rows {
        let left = Bytes::from_vec(vec![in rt.alloc(); b'x'; 70_000]?);
        let mut source = MemSource::new(left, 0, Calls::from_slice(rt.alloc(), &[failing])?);
        let read = read_all(rt.alloc(), &mut source, limit);
        match (read, wanted) {
            (Ok(bytes), Ok(count)) => assert_eq!(rt; bytes.len(), count),
            (read, wanted) => assert_eq!(rt; read.err(), wanted.err()),
        }
        assert_eq!(rt; source.calls, calls);
        if wanted == Err(long) {
            assert_eq!(rt; source.left.len() as u64, 69_999_u64.saturating_sub(limit));
        }
    }
    Ok(())
}

#[test]
fn a_sink_fails_as_listed(rt: HostRuntime) -> Result<(), Fail> {
    let text = b"0123456789";
    for (fails, written, calls) in [(0, 10, 3), (1, 0, 1), (2, 4, 2), (3, 8, 3), (4, 10, 3)] {
        let fails = Calls::from_slice(rt.alloc(), &[fails])?;
        let mut sink = MemSink::new(Bytes::new(rt.alloc()), 4, 0, fails, 0);
        assert_eq!(rt; write_all(&mut sink, text).is_ok(), written == 10);
        assert_eq!(rt; sink.written.as_slice(), &text[..written]);
        assert_eq!(rt; (sink.calls, sink.refused), (calls, 0));
    }
    Ok(())
}

#[test]
fn a_sure_sink_takes_all(rt: HostRuntime) {
    let mut sink = SureSink::new(Bytes::new(rt.alloc()), false);
    assert_eq!(rt; write_all(&mut sink, b"abc"), Ok(()));
    assert_eq!(rt; sink.write(b"d"), Ok(1));
    assert_eq!(rt; sink.written.as_slice(), b"abcd".as_slice());
    assert!(rt; !sink.lost);
}

#[test]
fn the_disk_gives_a_file(rt: HostRuntime) -> Result<(), Fail> {
    fs::write(&rt, "one.txt", "one")?;
    let mut shelf = DiskShelf::new(rt);
    let rows: [Row; 4] = [
        ("no/such/file", 3, Err(ShelfFault::Failed)),
        ("one.txt", 3, Ok(b"one")),
        ("one.txt", 2, Err(ShelfFault::Long)),
        ("/", 3, Err(ShelfFault::Failed)),
    ];
    reads(&rt, rt.alloc(), &mut shelf, &rows);
    fs::remove_file(&rt, "one.txt")?;
    assert_eq!(rt; shelf.faults, 2);
    let failed = shelf.failed.ok_or("a name")?;
    assert_eq!(rt; failed.as_slice(), b"/".as_slice());
    assert_eq!(rt; shelf.given.len(), 1);
    let given = shelf.given.get(0).ok_or("a file")?;
    assert_eq!(rt; given.name.as_slice(), b"one.txt".as_slice());
    assert_eq!(rt; given.bytes.as_slice(), b"one".as_slice());
    Ok(())
}

// A test's standard input is empty.
#[test]
fn standard_input_ends(rt: HostRuntime) -> Result<(), Fail> {
    let mut source = StdinSource::new(rt);
    assert_eq!(rt; source.read(&mut [0; 4]), Ok(0));
    assert_eq!(rt; source.faults, 0);
    let given = source.given.ok_or("bytes")?;
    assert!(rt; given.is_empty());
    Ok(())
}

#[test]
fn standard_output_takes_bytes(rt: HostRuntime) {
    let mut sink = StdoutSink::new(rt);
    assert_eq!(rt; write_all(&mut sink, b"a line\n"), Ok(()));
    assert_eq!(rt; sink.faults, 0);
}

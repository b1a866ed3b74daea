//! Tests of the shelves and sinks of `shelf_io`, and callers over any of them.

ghost use Rattle.std.specs.Prelude.{◌≡◌, ◌++◌, [], flat_map, OnOk};
ghost use Rattle.cause_defs.specs.Told.{IsWhereTold};
ghost use Rattle.cause_defs.specs.Faults.{Rises};
ghost use Rattle.cause_defs.specs.Reports.{Reports};
ghost use Rattle.shelf_io.specs.Take.{OnFailed};

use cause_defs::ReportFault;
use shelf_io::{Failed, FolderShelf, MemoryShelf, MemorySink, OutSink, Shelf, ShelfFault, Sink};
use std::alloc::{AllocError, Global};
use std::fs;
use std::test::Fail;

fn one_file(alloc: Global, fail: &[u32]) -> Result<MemoryShelf, AllocError> {
    let name = String::from_str(alloc, "five")?;
    let bytes = Vec::from_slice(alloc, b"12345")?;
    let files = vec![in alloc; (name, bytes)]?;
    Ok(MemoryShelf::new(files, Vec::from_slice(alloc, fail)?))
}

#[test]
fn memory_shelf_gives_files(rt: HostRuntime) -> Result<(), Fail> {
    let mut shelf = one_file(rt.alloc(), &[3])?;
    let calls: [(&str, usize, Result<(), ShelfFault>, &[u8]); 5] = [
        ("five", 5, Ok(()), b"12345"),
        ("five", 3, Err(ShelfFault::TooLong), b"1234"),
        ("six", 5, Err(ShelfFault::Failed), b""),
        ("five", 5, Err(ShelfFault::Failed), b""),
        ("five", 0, Err(ShelfFault::TooLong), b"1"),
    ];
    for (name, limit, answer, bytes) in calls {
        let mut into = Vec::new(rt.alloc());
        assert_eq!(rt;
            shelf.take(name, limit, &mut into),
            answer,
            "{name} {limit}"
        );
        assert_eq!(rt; into.as_slice(), bytes, "{name} {limit}");
    }
    Ok(())
}

#[test]
fn memory_sink_stops_at_its_room(rt: HostRuntime) -> Result<(), Fail> {
    let room = Vec::from_slice(rt.alloc(), b"...")?;
    let mut sink = MemorySink::new(room, Vec::new(rt.alloc()));
    assert_eq!(rt; sink.write(b"12345"), Err(Failed));
    assert_eq!(rt; sink.bytes(), b"123".as_slice());
    assert_eq!(rt; sink.flush(), Ok(()));
    assert_eq!(rt; sink.flushed(), 3);
    Ok(())
}

#[test]
fn memory_sink_fails_at_listed_calls(rt: HostRuntime) -> Result<(), Fail> {
    let room = Vec::from_slice(rt.alloc(), b"..........")?;
    let fail = Vec::from_slice(rt.alloc(), &[(1, 2), (2, 0), (1, 9), (4, 9)])?;
    let mut sink = MemorySink::new(room, fail);
    assert_eq!(rt; sink.write(b"ab"), Ok(()));
    assert_eq!(rt; sink.write(b"cde"), Err(Failed));
    assert_eq!(rt; sink.flush(), Err(Failed));
    assert_eq!(rt; sink.flushed(), 0);
    assert_eq!(rt; sink.flush(), Ok(()));
    assert_eq!(rt; sink.write(b"fg"), Err(Failed));
    assert_eq!(rt; sink.bytes(), b"abcdfg".as_slice());
    assert_eq!(rt; sink.flushed(), 4);
    Ok(())
}

#[test]
fn folder_shelf_reads_files(rt: HostRuntime) -> Result<(), Fail> {
    let path = "shelf_io_test_file";
    fs::write(&rt, path, "12345")?;
    let mut shelf = FolderShelf::new(&rt);
    let calls: [(&str, usize, Result<(), ShelfFault>, &[u8]); 4] = [
        (path, 5, Ok(()), b"12345"),
        (path, 3, Err(ShelfFault::TooLong), b"1234"),
        ("no such file", 5, Err(ShelfFault::Failed), b""),
        (".", 5, Err(ShelfFault::Failed), b""),
    ];
    for (name, limit, answer, bytes) in calls {
        let mut into = Vec::new(rt.alloc());
        assert_eq!(rt;
            shelf.take(name, limit, &mut into),
            answer,
            "{name} {limit}"
        );
        assert_eq!(rt; into.as_slice(), bytes, "{name} {limit}");
    }
    fs::remove_file(&rt, path)?;
    Ok(())
}

#[test]
fn out_sink_prints(rt: HostRuntime) {
    let mut sink = OutSink::new(&rt);
    assert_eq!(rt; sink.write(b"printed by a test\n"), Ok(()));
    assert_eq!(rt; sink.flush(), Ok(()));
}

/// A caller over any sink.
fn write_piece<W: Sink>(out: &mut W, piece: &[u8]) -> Result<(), ReportFault>
    ensures { Reports W.written W.flushed W.faults W.counts_failures_alone result out.old out.new piece.now }
{
    out.write(piece)?;
    Ok(())
}

/// A caller over any sink, with two writes.
fn write_both<W: Sink>(out: &mut W, first: &[u8], second: &[u8]) -> Result<(), ReportFault>
    ensures { Reports W.written W.flushed W.faults W.counts_failures_alone result out.old out.new (first.now ++ second.now) }
{
    write_piece(out, first)?;
    write_piece(out, second)
}

/// A caller over any sink, with a loop.
fn write_lines<W: Sink>(out: &mut W, lines: &[Vec<u8>]) -> Result<(), ReportFault>
    ensures { Reports W.written W.flushed W.faults W.counts_failures_alone result out.old out.new (flat_map (λ line. line.items) lines.now) }
{
    for line in lines {
        write_piece(out, line)?;
    }
    Ok(())
}

/// A sink that counts each call, also one that succeeds, and says so. It is lawful.
#[derive(Debug, Drop)]
struct Busy {
    calls: u64,
}

impl Sink for Busy {
    ghost use Rattle.std.specs.Prelude.{None, false};

    ghost written = { λ _. None };

    ghost flushed = { λ _. 0 };

    ghost faults = { λ s. s.calls };

    ghost counts_failures_alone = { λ _. false };

    fn write(&mut self, _bytes: &[u8]) -> Result<(), Failed> {
        self.calls = self.calls.saturating_add(1);
        Ok(())
    }

    fn flush(&mut self) -> Result<(), Failed> {
        self.calls = self.calls.saturating_add(1);
        Ok(())
    }
}

/// A caller over any shelf.
fn take_from<S: Shelf>(shelf: &mut S, name: &str, into: &mut Vec<u8>) -> Result<(), ShelfFault>
    requires { into.old.items ≡ [] }
    ensures ok { OnOk result (IsWhereTold (S.file shelf.old name.now) into.new.items) }
    ensures failed { OnFailed result (Rises (S.faults shelf.old) (S.faults shelf.new)) }
    ensures failed_name { OnFailed result (IsWhereTold (S.last_failed shelf.new) name.now) }
{
    shelf.take(name, 100, into)
}

#[test]
fn serves_callers_over_any(rt: HostRuntime) -> Result<(), Fail> {
    let mut shelf = one_file(rt.alloc(), &[])?;
    let mut into = Vec::new(rt.alloc());
    assert_eq!(rt; take_from(&mut shelf, "five", &mut into), Ok(()));
    let mut sink = MemorySink::new(vec![in rt.alloc(); 0; 8]?, Vec::new(rt.alloc()));
    assert_eq!(rt; write_both(&mut sink, b"67", &into), Ok(()));
    assert_eq!(rt;
        write_lines(&mut sink, &vec![in rt.alloc(); into]?),
        Err(ReportFault::Write)
    );
    assert_eq!(rt; sink.bytes(), b"67123451".as_slice());
    Ok(())
}

#[test]
fn serves_a_sink_that_counts_more_than_failures(rt: HostRuntime) {
    let mut sink = Busy { calls: 0 };
    assert_eq!(rt; write_both(&mut sink, b"6", b"7"), Ok(()));
    assert_eq!(rt; sink.flush(), Ok(()));
    assert_eq!(rt; sink.calls, 3);
}

use super::Waiting;
use crate::Failed;
use std::alloc::Global;
use std::io;
use std::io::{ErrorKind, Write};
use std::test::Fail;

/// Takes three bytes of each piece. Each second call is cut short by a signal, and after `calls`
/// calls it fails.
#[derive(Drop)]
struct Slow {
    held: Vec<u8>,
    calls: u32,
}

impl Write for Slow {
    fn write(&mut self, bytes: &[u8]) -> io::Result<usize> {
        if self.calls == 0 {
            return Err(io::Error::from(ErrorKind::StorageFull));
        }
        self.calls -= 1;
        if self.calls % 2 == 1 {
            return Err(io::Error::from(ErrorKind::Interrupted));
        }
        let taken = bytes.len().min(3);
        self.held.extend_from_slice(&bytes[..taken])?;
        Ok(taken)
    }

    fn flush(&mut self) -> io::Result<()> {
        Ok(())
    }
}

fn make_slow(alloc: Global, calls: u32) -> Waiting<Slow> {
    Waiting::new(Slow {
        held: Vec::new(alloc),
        calls,
    })
}

#[test]
fn hands_on_all_in_order(rt: HostRuntime) -> Result<(), Fail> {
    let long = vec![in rt.alloc(); b'x'; 32769]?;
    let mut out = make_slow(rt.alloc(), 1_000_000);
    assert_eq!(rt; out.write(b"12345"), Ok(()));
    assert_eq!(rt; out.writer.held.len(), 0);
    assert_eq!(rt; out.write(&long), Ok(()));
    assert_eq!(rt; out.write(b"67"), Ok(()));
    assert_eq!(rt; out.flush(), Ok(()));
    let held = out.writer.held.as_slice();
    assert!(rt; held.starts_with(b"12345xxx"));
    assert!(rt; held.ends_with(b"xxx67"));
    assert_eq!(rt; held.len(), 32776);
    Ok(())
}

#[test]
fn hands_on_nothing_after_a_fault(rt: HostRuntime) {
    let mut out = make_slow(rt.alloc(), 4);
    assert_eq!(rt; out.write(b"0123456789"), Ok(()));
    assert_eq!(rt; out.flush(), Err(Failed));
    assert_eq!(rt; out.writer.held.as_slice(), b"012345".as_slice());
    out.writer.calls = 1000;
    assert_eq!(rt; out.write(b"z"), Err(Failed));
    assert_eq!(rt; out.flush(), Err(Failed));
    assert_eq!(rt; out.writer.held.as_slice(), b"012345".as_slice());
}

/// Takes all bytes, and flushes only while `flushes` are left.
#[derive(Drop)]
struct Unflushed {
    held: Vec<u8>,
    flushes: u32,
}

impl Write for Unflushed {
    fn write(&mut self, bytes: &[u8]) -> io::Result<usize> {
        self.held.extend_from_slice(bytes)?;
        Ok(bytes.len())
    }

    fn flush(&mut self) -> io::Result<()> {
        if self.flushes == 0 {
            return Err(io::Error::from(ErrorKind::StorageFull));
        }
        self.flushes -= 1;
        Ok(())
    }
}

#[test]
fn a_flush_fails_below_the_buffer(rt: HostRuntime) {
    let mut out = Waiting::new(Unflushed {
        held: Vec::new(rt.alloc()),
        flushes: 1,
    });
    assert_eq!(rt; out.write(b"12"), Ok(()));
    assert_eq!(rt; out.flush(), Ok(()));
    assert_eq!(rt; out.write(b"345"), Ok(()));
    assert_eq!(rt; out.flush(), Err(Failed), "the writer did not flush");
    out.writer.flushes = 1;
    assert_eq!(rt; out.flush(), Err(Failed), "and is not asked again");
    assert_eq!(rt; out.write(b"6"), Err(Failed));
    assert_eq!(rt; out.writer.flushes, 1);
    assert_eq!(rt; out.writer.held.as_slice(), b"12345".as_slice());
}

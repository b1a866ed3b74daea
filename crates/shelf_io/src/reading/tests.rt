use super::read_up_to;
use crate::ShelfFault;
use std::io;
use std::io::{ErrorKind, Read};

/// Gives three bytes at a time. Each second call is cut short by a signal, and after `calls` calls
/// it fails.
#[derive(Drop)]
struct Slow {
    left: &'static [u8],
    calls: u32,
}

impl Read for Slow {
    fn read(&mut self, chunk: &mut [u8]) -> io::Result<usize> {
        if self.calls == 0 {
            return Err(io::Error::from(ErrorKind::UnexpectedEof));
        }
        self.calls -= 1;
        if self.calls % 2 == 1 {
            return Err(io::Error::from(ErrorKind::Interrupted));
        }
        let given = self.left.len().min(3).min(chunk.len());
        chunk[..given].copy_from_slice(&self.left[..given]);
        self.left = &self.left[given..];
        Ok(given)
    }
}

#[test]
fn reads_up_to_the_limit(rt: HostRuntime) {
    let cases: [(u32, usize, Result<(), ShelfFault>, &[u8]); 5] = [
        (100, 10, Ok(()), b"0123456789"),
        (100, 9, Err(ShelfFault::TooLong), b"0123456789"),
        (100, 3, Err(ShelfFault::TooLong), b"0123"),
        (100, usize::MAX, Ok(()), b"0123456789"),
        (4, 10, Err(ShelfFault::Failed), b"012345"),
    ];
    for (calls, limit, answer, bytes) in cases {
        let left = b"0123456789";
        let mut file = Slow { left, calls };
        let mut into = Vec::new(rt.alloc());
        assert_eq!(rt;
            read_up_to(&mut file, limit, &mut into),
            answer,
            "{calls} {limit}"
        );
        assert_eq!(rt; into.as_slice(), bytes, "{calls} {limit}");
    }
}

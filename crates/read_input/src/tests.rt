// Reads that are cut short, and a read that fails after some bytes.
use crate::read_full;
use std::io;
use std::io::{ErrorKind, Read};

// A reader that gives one byte at a time, and fails when none is left.
#[derive(Drop)]
struct Failing(u8);

impl Read for Failing {
    fn read(&mut self, buf: &mut [u8]) -> io::Result<usize> {
        if self.0 == 0 {
            return Err(io::Error::from(ErrorKind::BrokenPipe));
        }
        if buf.is_empty() {
            return Ok(0);
        }
        buf[0] = self.0;
        self.0 -= 1;
        Ok(1)
    }
}

#[test]
fn reads_to_the_end_or_until_full(rt: HostRuntime) -> io::Result<()> {
    let bytes = *b"abcde";
    let mut from = &bytes[..];
    let mut buf = [0u8; 3];
    let n = read_full(&mut from, &mut buf)?;
    assert_eq!(rt; n, 3);
    assert_eq!(rt; buf, *b"abc");
    let n = read_full(&mut from, &mut buf)?;
    assert_eq!(rt; n, 2);
    assert_eq!(rt; buf, *b"dec");
    let n = read_full(&mut from, &mut buf)?;
    assert_eq!(rt; n, 0);
    Ok(())
}

#[test]
fn passes_an_error_on(rt: HostRuntime) -> io::Result<()> {
    let mut from = Failing(5);
    let mut buf = [0u8; 3];
    let n = read_full(&mut from, &mut buf)?;
    assert_eq!(rt; n, 3);
    assert_eq!(rt; buf, [5, 4, 3]);
    assert!(rt; read_full(&mut from, &mut buf).is_err());
    Ok(())
}

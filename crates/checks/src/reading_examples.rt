// Examples of reading an input.
use std::io;
use std::io::{ErrorKind, Read};
use std::test::Fail;
use text::input::{read_at_most, read_into_room};

// A reader of these bytes, whose first read is interrupted.
#[derive(Drop)]
struct InterruptedOnce<'a> {
    first: bool,
    bytes: &'a [u8],
}

impl Read for InterruptedOnce<'_> {
    fn read(&mut self, buf: &mut [u8]) -> io::Result<usize> {
        if self.first {
            self.first = false;
            return Err(ErrorKind::Interrupted.into());
        }
        self.bytes.read(buf)
    }
}

#[test]
fn no_more_is_read_than_the_bound(rt: HostRuntime) -> Result<(), Fail> {
    let mut input: &[u8] = b"A C";
    let bytes = read_at_most(rt.alloc(), &mut input, 2)?;
    assert_eq!(rt; bytes.as_slice(), b"A ".as_slice());
    assert_eq!(rt; input, b"C".as_slice());
    Ok(())
}

#[test]
fn a_bound_beyond_all_room_is_no_refusal(rt: HostRuntime) -> Result<(), Fail> {
    let mut input: &[u8] = b"A C";
    let bytes = read_at_most(rt.alloc(), &mut input, usize::MAX)?;
    assert_eq!(rt; bytes.as_slice(), b"A C".as_slice());
    Ok(())
}

#[test]
fn an_interrupted_read_is_done_again(rt: HostRuntime) -> Result<(), Fail> {
    let mut input = InterruptedOnce {
        first: true,
        bytes: b"A C",
    };
    let bytes = read_at_most(rt.alloc(), &mut input, usize::MAX)?;
    assert_eq!(rt; bytes.as_slice(), b"A C".as_slice());
    Ok(())
}

#[test]
fn room_made_beforehand_bounds_what_is_read(rt: HostRuntime) -> Result<(), Fail> {
    let mut input: &[u8] = b"A C";
    let bytes = read_into_room(rt.alloc(), &mut input, 2)?;
    assert_eq!(rt; bytes.as_slice(), b"A ".as_slice());
    assert_eq!(rt; input, b"C".as_slice());
    let mut input = InterruptedOnce {
        first: true,
        bytes: b"A C",
    };
    let refused = read_into_room(rt.alloc(), &mut input, 2).map_err(|e| e.kind());
    assert_eq!(rt; refused, Err(ErrorKind::Interrupted));
    let refused = read_into_room(rt.alloc(), &mut input, usize::MAX).map_err(|e| e.kind());
    assert_eq!(rt; refused, Err(ErrorKind::OutOfMemory));
    Ok(())
}

// A file that comes in small pieces, a line that is taken a byte at a time, and reads and writes that fail.
use crate::{Failure, answer_stream};
use file::MOST_READ;
use std::io::{self, ErrorKind, Read, Write};

// A task from 1 tick to 1, with a note.
const FILE: &[u8] = b"0100010001FD ~\n";

const LINE: &[u8] = b"200100000000DF\n";

const TOO_LONG: &[u8] = b"2F010E0000C2\n";

// Gives four bytes at a time, each time only after an interruption; and behind the last one an error, if it is to fail.
#[derive(Drop)]
struct Pieces<'a> {
    rest: &'a [u8],
    fails: bool,
    interrupts: bool,
}

impl Read for Pieces<'_> {
    fn read(&mut self, buf: &mut [u8]) -> io::Result<usize> {
        self.interrupts = !self.interrupts;
        if self.interrupts {
            return Err(ErrorKind::Interrupted.into());
        }
        if self.rest.is_empty() && self.fails {
            return Err(ErrorKind::BrokenPipe.into());
        }
        let most = buf.len().min(4);
        self.rest.read(&mut buf[..most])
    }
}

// Takes a byte at a time, each time only after an interruption; and fails where there is room for no more.
#[derive(Drop)]
struct OneByOne {
    held: Vec<u8>,
    room: usize,
    interrupts: bool,
}

impl Write for OneByOne {
    fn write(&mut self, buf: &[u8]) -> io::Result<usize> {
        self.interrupts = !self.interrupts;
        if self.interrupts {
            return Err(ErrorKind::Interrupted.into());
        }
        if self.held.len() >= self.room {
            return Err(ErrorKind::StorageFull.into());
        }
        let most = buf.len().min(1);
        self.held.write(&buf[..most])
    }

    fn flush(&mut self) -> io::Result<()> {
        Ok(())
    }
}

fn reader(rest: &[u8], fails: bool) -> Pieces<'_> {
    Pieces {
        rest,
        fails,
        interrupts: false,
    }
}

fn writer(held: Vec<u8>, room: usize) -> OneByOne {
    OneByOne {
        held,
        room,
        interrupts: false,
    }
}

#[test]
fn piece_by_piece(rt: HostRuntime) {
    let mut to = writer(Vec::new(rt.alloc()), LINE.len());
    let said = answer_stream(rt.alloc(), &mut reader(FILE, false), &mut to);
    assert!(rt; said.is_ok());
    assert!(rt; to.held.as_slice() == LINE);
}

// What came before the error is a file that has an answer.
#[test]
fn a_read_that_fails(rt: HostRuntime) {
    let mut held = Vec::new(rt.alloc());
    let said = answer_stream(rt.alloc(), &mut reader(FILE, true), &mut held);
    assert!(rt; matches!(said, Err(Failure::Reading(e)) if e.kind() == ErrorKind::BrokenPipe));
    assert!(rt; held.is_empty());
}

#[test]
fn a_write_that_fails(rt: HostRuntime) {
    let mut to = writer(Vec::new(rt.alloc()), 5);
    let mut from = FILE;
    let said = answer_stream(rt.alloc(), &mut from, &mut to);
    assert!(rt; matches!(said, Err(Failure::Writing(e)) if e.kind() == ErrorKind::StorageFull));
    assert!(rt; to.held.as_slice() == &LINE[..5]);
}

#[test]
fn a_reader_without_end(rt: HostRuntime) {
    let mut held = Vec::new(rt.alloc());
    let said = answer_stream(rt.alloc(), &mut io::repeat(b'0'), &mut held);
    assert!(rt; said.is_ok());
    assert!(rt; held.as_slice() == TOO_LONG);
}

// Three bytes are left of a reader that has three more than are read.
#[test]
fn what_is_left(rt: HostRuntime) {
    let bytes = [b'~'; MOST_READ as usize + 3];
    let mut from: &[u8] = &bytes;
    let mut held = Vec::new(rt.alloc());
    let said = answer_stream(rt.alloc(), &mut from, &mut held);
    assert!(rt; said.is_ok());
    assert!(rt; from.len() == 3);
    assert!(rt; held.as_slice() == TOO_LONG);
}

// From a reader to a writer: a file is read, and the line that answers it is written.
ghost use Rattle.std.specs.Prelude.{◌<◌, List, ℕ, IfOk, OnErr, OnOk, length};
ghost use Rattle.std.specs.Io.KnownBytes.{Appends};
ghost use Rattle.answer.specs.Streams.{IsAnswer, IsBegun, IsLost, IsRead, Streamed};

use crate::{LINE, answer};
use file::MOST_READ;
use std::alloc::Allocator;
use std::io::{self, ErrorKind, Read, Write};

// Why there is no line, or not all of it.
#[derive(Debug, Drop)]
pub enum Failure {
    // The file can't be read, or there is no memory for it.
    Reading(io::Error),
    // The line can't be written.
    Writing(io::Error),
}

const MOST: usize = MOST_READ as usize;

// So many bytes are read at once.
const PIECE: usize = 4096;

// Reads all that the reader has left, or its first `MOST_READ` bytes. A read that is interrupted is tried again.
fn read_file<R: Read, A: Allocator>(alloc: A, reader: &mut R) -> io::Result<Vec<u8, A>>
    ensures reads { IfOk result (λ file. IsRead (R.remaining reader.old) (R.remaining reader.new) file.items) }
    ensures loses { OnErr result (IsLost (R.remaining reader.old) (R.remaining reader.new)) }
{
    let mut file = Vec::with_capacity(alloc, MOST)?;
    let mut piece = [0; PIECE];
    for _ in 0..u64::MAX {
        if file.len() == MOST {
            return Ok(file);
        }
        let room = PIECE.min(MOST - file.len());
        match reader.read(&mut piece[..room]) {
            Ok(0) => return Ok(file),
            // There is room for all of them.
            Ok(n) => file.extend_from_slice(&piece[..n]).unwrap(),
            Err(e) => {
                if e.kind() != ErrorKind::Interrupted {
                    return Err(e);
                }
            }
        }
    }
    Err(ErrorKind::TimedOut.into())
}

// Writes the line. A write that is interrupted is tried again.
fn write_whole<W: Write>(line: &[u8], writer: &mut W) -> io::Result<()>
    requires { 0 < length line.now }
    ensures writes { OnOk result (Appends (W.contents writer.old) (W.contents writer.new) line.now) }
    ensures stops { OnErr result (IsBegun (W.contents writer.old) (W.contents writer.new) line.now) }
{
    let mut at = 0;
    for _ in 0..u64::MAX {
        match writer.write(&line[at..]) {
            Ok(0) => return Err(ErrorKind::WriteZero.into()),
            Ok(n) => at += n,
            Err(e) => {
                if e.kind() != ErrorKind::Interrupted {
                    return Err(e);
                }
            }
        }
        if at == line.len() {
            return Ok(());
        }
    }
    Err(ErrorKind::TimedOut.into())
}

// Writes the line that answers the file.
fn write_answer<W: Write>(file: &[u8], writer: &mut W) -> io::Result<()>
    ensures writes { OnOk result ((line : List ℕ) × IsAnswer file.now line × Appends (W.contents writer.old) (W.contents writer.new) line) }
    ensures stops { OnErr result ((line : List ℕ) × IsAnswer file.now line × IsBegun (W.contents writer.old) (W.contents writer.new) line) }
{
    let mut line = [0; LINE];
    // There is room for any line.
    let len = answer(file, &mut line).unwrap();
    write_whole(&line[..len], writer)
}

// Reads a file, and writes the line that answers it and nothing else. Of a reader that has more left, `MOST_READ` bytes are read: so
// many tell that a file is too long. Memory is asked for once, for just so many. Where the file can't be read to its end, nothing is
// written; where the line can't be written, a front part of it is.
pub fn answer_stream<R: Read, W: Write, A: Allocator>(
    alloc: A,
    reader: &mut R,
    writer: &mut W,
) -> Result<(), Failure>
    ensures { Streamed (R.remaining reader.old) (R.remaining reader.new) (W.contents writer.old) (W.contents writer.new) result }
{
    let file = read_file(alloc, reader).map_err(Failure::Reading)?;
    write_answer(&file, writer).map_err(Failure::Writing)
}

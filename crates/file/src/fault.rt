// Why a file gives no sheet, or its sheet no plan.
ghost use Rattle.std.specs.Prelude.{◌≡◌};
ghost use Rattle.common.specs.Refusals.{number};
ghost use Rattle.file.specs.Faults.{figures, unread};

use common::Refusal;
use std::error::Error;
use std::fmt;

// Each fault has a layer, a cause, which is a refusal, and a line, counted from 1.
#[derive(Clone, Copy, Debug)]
pub enum Fault {
    // The file has more than 65,535 bytes.
    TooLong,
    // The piece is no line.
    Text { line: u16 },
    // The frame of the line can't be read.
    Frame { line: u16, cause: Refusal },
    // The sheet refuses the call of the line.
    Sheet { line: u16, cause: Refusal },
    // The book does.
    Book { line: u16, cause: Refusal },
    // There is no plan for the file's sheet.
    Plan { cause: Refusal },
}

impl Fault {
    // The fault of a line that can't be read.
    pub(crate) fn unread(line: u16, cause: Refusal) -> Fault
        ensures { figures result ≡ unread line cause }
    {
        match cause {
            Refusal::NotALine => Fault::Text { line },
            cause => Fault::Frame { line, cause },
        }
    }

    // 1 for the text of the file, 2 for a frame, 3 for the sheet, 4 for the book, 5 for the plan.
    pub fn layer(self) -> u8
        ensures { result ≡ (figures self).layer }
    {
        match self {
            Fault::TooLong | Fault::Text { .. } => 1,
            Fault::Frame { .. } => 2,
            Fault::Sheet { .. } => 3,
            Fault::Book { .. } => 4,
            Fault::Plan { .. } => 5,
        }
    }

    pub fn cause(self) -> Refusal
        ensures { number result ≡ (figures self).cause }
    {
        match self {
            Fault::TooLong => Refusal::Memory,
            Fault::Text { .. } => Refusal::NotALine,
            Fault::Frame { cause, .. }
            | Fault::Sheet { cause, .. }
            | Fault::Book { cause, .. }
            | Fault::Plan { cause } => cause,
        }
    }

    // The line at fault; 0 where none is meant.
    pub fn line(self) -> u16
        ensures { result ≡ (figures self).line }
    {
        match self {
            Fault::TooLong | Fault::Plan { .. } => 0,
            Fault::Text { line }
            | Fault::Frame { line, .. }
            | Fault::Sheet { line, .. }
            | Fault::Book { line, .. } => line,
        }
    }
}

impl fmt::Display for Fault {
    ghost use Rattle.std.specs.Prelude.{Some};
    ghost use Rattle.file.specs.Texts.{fault_text};

    ghost output = { λ fault. Some (fault_text fault) };

    fn fmt<W: fmt::Write>(&self, f: &mut fmt::Formatter<W>) -> fmt::Result {
        match *self {
            Fault::TooLong => f.write_str("the file has more than 65535 bytes"),
            Fault::Plan { cause } => write!(f, "no plan: {cause}"),
            fault => write!(f, "line {}: {}", fault.line(), fault.cause()),
        }
    }
}

impl Error for Fault {}

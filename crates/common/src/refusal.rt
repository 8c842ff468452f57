// Why a call is refused. A refused call leaves everything as it was, but for the cells of a plan without a lawful order.
ghost use Rattle.std.specs.Prelude.{◌≡◌};
ghost use Rattle.std.specs.Cmp.Rules.{comparing};
ghost use Rattle.std.proofs.Common.{rules};
ghost use Rattle.common.specs.Refusals.{number};

use crate::exact::Exact;
use std::error::Error;
use std::fmt;

// Where several fit a call on a sheet or a book, the smallest number is answered.
#[derive(Clone, Copy, Debug, PartialEq, Eq)]
pub enum Refusal {
    // No task has the number; of a call that changes a book, the number is above 15.
    UnknownTask = 1,
    // Sixteen tasks are there.
    SheetFull = 2,
    // The durations break 1 <= min <= max <= 65,535.
    Durations = 3,
    // The link would close a circle; from a task to itself too.
    Circle = 4,
    // There is no such direct link.
    NoLink = 5,
    // The deadline breaks 1 <= deadline <= 1,048,575.
    DeadlineRange = 6,
    // The task is soft and was to be hard, or hard and was to be soft.
    OtherKind = 7,
    // The ramp, the step or the weight breaks its rule.
    BookRule = 8,
    // Six steps are there.
    StepsFull = 9,
    // No order is lawful.
    NoOrder = 10,
    // The bytes are not a line of a sheet file.
    NotALine = 11,
    // The bytes of the line's frame don't add up to 0 modulo 256.
    BadSum = 12,
    // The frame is of no known kind, or has not the length of its kind.
    BadFrame = 13,
    // The memory lent is too short, or the file to load has more than 65,535 bytes. Of a plan it comes before all others.
    Memory = 14,
    // The task is in the row.
    Placed = 15,
    // A direct predecessor of the task is not in the row.
    NotReady = 16,
    // No lawful order begins with the row and then the task.
    NoOrderSo = 17,
}

impl Refusal {
    pub fn number(self) -> u8
        ensures { result ≡ number self }
    {
        // An enum gives its number by a cast alone.
        self as u8
    }
}

impl fmt::Display for Refusal {
    ghost use Rattle.std.specs.Prelude.{Some};
    ghost use Rattle.common.specs.Texts.{refusal_text};

    ghost output = { λ refusal. Some (refusal_text refusal) };

    fn fmt<W: fmt::Write>(&self, f: &mut fmt::Formatter<W>) -> fmt::Result {
        f.write_str(match self {
            Refusal::UnknownTask => "no task has the number",
            Refusal::SheetFull => "sixteen tasks are there",
            Refusal::Durations => "durations must keep 1 <= min <= max <= 65535",
            Refusal::Circle => "the link would close a circle",
            Refusal::NoLink => "there is no such direct link",
            Refusal::DeadlineRange => "a deadline must keep 1 <= deadline <= 1048575",
            Refusal::OtherKind => "a soft task can't be marked hard, nor a hard one soft",
            Refusal::BookRule => "the ramp, the step or the weight breaks its rule",
            Refusal::StepsFull => "six steps are there",
            Refusal::NoOrder => "no order is lawful",
            Refusal::NotALine => "the bytes are not a line",
            Refusal::BadSum => "the bytes of the frame don't add up to 0 modulo 256",
            Refusal::BadFrame => "the frame is of no known kind, or of a wrong length",
            Refusal::Memory => "the memory is too short",
            Refusal::Placed => "the task is placed already",
            Refusal::NotReady => "a direct predecessor is not placed",
            Refusal::NoOrderSo => "no lawful order begins so",
        })
    }
}

impl Error for Refusal {}

impl Exact for Refusal {
    ghost exact = { Prim.search (comparing, rules) };
}

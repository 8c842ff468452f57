// The worked sheets with their books, plans, rows and files: the entries of each sheet stand together, one after another. The list
// is borrowed, since the prover can't read a function that copies so many entries out of a constant.
use crate::entry::Entry::{
    self, Above, Answer, Best, Cell, Expected, Finish, Fits, Frames, Keenest, Linked, Margin,
    Names, NoOrder, Note, OnBook, OnSheet, Place, Refused, Saved, Tally, Tightest, Worth,
};
use book::Call::{DropSteps, Ramp, Step, Weight};
use common::Refusal::{
    BadFrame, BadSum, BookRule, Circle, DeadlineRange, Durations, NoLink, NoOrderSo, NotALine,
    NotReady, OtherKind, Placed, StepsFull, UnknownTask,
};
use file::Frame;
use sheet::Call::{Cut, Hard, Link, Plain, Soft, Task, Time};

pub const WORKED: &[&[Entry]] = &[
    // A sheet without tasks has one order, the empty one.
    &[
        Best(&[], 0),
        Cell(0, 1),
        Place(&[], 0, Err(UnknownTask)),
        Finish(&[], &[], 0),
        Saved(b""),
    ],
    // The bounds of durations and deadlines; the midpoint is rounded down.
    &[
        OnSheet(Task(0, 5), Err(Durations)),
        OnSheet(Task(1, 65536), Err(Durations)),
        OnSheet(Task(6, 5), Err(Durations)),
        OnSheet(Time(0, 1, 1), Err(UnknownTask)),
        OnSheet(Task(1, 65535), Ok(())),
        OnSheet(Task(1, 2), Ok(())),
        Expected(1, 1),
        OnSheet(Time(1, 2, 1), Err(Durations)),
        OnSheet(Hard(0, 0), Err(DeadlineRange)),
        OnSheet(Hard(0, 1048576), Err(DeadlineRange)),
        OnSheet(Hard(0, 1048575), Ok(())),
        OnSheet(Hard(2, 0), Err(UnknownTask)),
        // A mark comes off before the other goes on.
        OnSheet(Soft(0), Err(OtherKind)),
        OnSheet(Plain(0), Ok(())),
        OnSheet(Soft(0), Ok(())),
        OnSheet(Soft(0), Ok(())),
        OnSheet(Hard(0, 9), Err(OtherKind)),
        OnSheet(Plain(2), Err(UnknownTask)),
    ],
    // A task may end at its deadline, and not a tick later.
    &[
        OnSheet(Task(1, 1), Ok(())),
        OnSheet(Task(5, 5), Ok(())),
        OnSheet(Task(2, 2), Ok(())),
        Tightest(None),
        Fits(true),
        OnSheet(Hard(1, 5), Ok(())),
        Margin(1, Some(0)),
        Margin(0, None),
        Fits(true),
        OnSheet(Hard(1, 4), Ok(())),
        Margin(1, Some(-1)),
        Fits(false),
        Tightest(Some(1)),
        Keenest(None),
        // No order, since task 1 is late even if it is first. How the tasks of a set ended doesn't matter to its cell.
        OnSheet(Soft(2), Ok(())),
        OnBook(Ramp(2, 12, 7, 10), Ok(())),
        NoOrder,
        Cell(0, 0),
        Cell(2, 13),
        Cell(7, 1),
        // By 6, task 2 can't be first, and task 0 may be, but then task 2 is worth 8.
        OnSheet(Hard(1, 6), Ok(())),
        Best(&[1, 2, 0], 12),
        Cell(0, 13),
        Cell(1, 9),
        Cell(4, 0),
        // Task 2 may not be placed before task 1. Finishing takes the lowest number that may come, whatever it earns.
        Place(&[], 2, Err(NoOrderSo)),
        Place(&[0], 0, Err(Placed)),
        Place(&[0], 3, Err(UnknownTask)),
        Finish(&[], &[0, 1, 2], 8),
        Finish(&[0], &[0, 1, 2], 8),
        Tally(&[0], 1, 1, 1, 0),
        Tally(&[0, 1], 3, 6, 6, 0),
        Saved(
            b"0100010001FD\n0100050005F5\n0100020002FB\n0301000006F6\n040200000C00000700000ADD\n0502F9\n",
        ),
    ],
    // A circle is refused until it is cut; a link that is there is accepted.
    &[
        OnSheet(Task(1, 1), Ok(())),
        OnSheet(Task(1, 1), Ok(())),
        OnSheet(Task(1, 1), Ok(())),
        OnSheet(Link(0, 1), Ok(())),
        OnSheet(Link(1, 2), Ok(())),
        OnSheet(Link(2, 0), Err(Circle)),
        OnSheet(Link(1, 1), Err(Circle)),
        OnSheet(Link(3, 3), Err(UnknownTask)),
        OnSheet(Link(0, 1), Ok(())),
        OnSheet(Cut(0, 2), Err(NoLink)),
        OnSheet(Cut(0, 3), Err(UnknownTask)),
        OnSheet(Cut(1, 2), Ok(())),
        OnSheet(Link(2, 0), Ok(())),
        Above(1, 2, true),
        Best(&[2, 0, 1], 0),
    ],
    // Task 0 stays above task 2 while one of two paths is left.
    &[
        OnSheet(Task(3, 3), Ok(())),
        OnSheet(Task(2, 2), Ok(())),
        OnSheet(Task(1, 1), Ok(())),
        OnSheet(Link(0, 1), Ok(())),
        OnSheet(Link(1, 2), Ok(())),
        OnSheet(Link(0, 2), Ok(())),
        OnSheet(Hard(2, 9), Ok(())),
        Margin(2, Some(3)),
        OnSheet(Cut(0, 2), Ok(())),
        Linked(0, 2, false),
        Above(2, 0, true),
        Linked(0, 1, true),
        Margin(2, Some(3)),
        OnSheet(Cut(0, 1), Ok(())),
        Above(2, 0, false),
        Margin(2, Some(6)),
    ],
    // Hard tasks of equal deadline count for each other.
    &[
        OnSheet(Task(2, 2), Ok(())),
        OnSheet(Task(1, 3), Ok(())),
        OnSheet(Hard(0, 5), Ok(())),
        OnSheet(Hard(1, 5), Ok(())),
        Margin(0, Some(0)),
        Margin(1, Some(0)),
        Tightest(Some(0)),
        // Each of them would be in time after a task of one tick, and the two together are not.
        OnSheet(Task(1, 1), Ok(())),
        Place(&[], 2, Err(NoOrderSo)),
        // What is placed first delays the other, whose deadline is earlier.
        OnSheet(Hard(0, 4), Ok(())),
        Place(&[], 1, Err(NoOrderSo)),
        Finish(&[], &[0, 1, 2], 0),
    ],
    // Five tasks, the fourth of them hard: only the first must have ended before it.
    &[
        OnSheet(Task(1, 7), Ok(())),
        OnSheet(Task(2, 10), Ok(())),
        OnSheet(Task(2, 10), Ok(())),
        OnSheet(Task(4, 8), Ok(())),
        OnSheet(Task(1, 3), Ok(())),
        OnSheet(Link(0, 1), Ok(())),
        OnSheet(Link(0, 2), Ok(())),
        OnSheet(Link(0, 3), Ok(())),
        OnSheet(Link(1, 4), Ok(())),
        OnSheet(Link(2, 4), Ok(())),
        OnSheet(Link(3, 4), Ok(())),
        OnSheet(Hard(3, 30), Ok(())),
        OnSheet(Soft(1), Ok(())),
        OnSheet(Soft(2), Ok(())),
        Margin(3, Some(15)),
        Expected(3, 6),
        Tightest(Some(3)),
        // Of 18 and 12 over 10 ticks each, the greater is the keener; of equals the lower number, at no worth too.
        Keenest(Some(1)),
        OnBook(Ramp(2, 12, 21, 24), Ok(())),
        Keenest(Some(2)),
        OnBook(Ramp(1, 18, 9, 27), Ok(())),
        Keenest(Some(1)),
        // In the order of their numbers they would earn 29, but task 3 could end at 35. A set may lack a task that stands before one
        // of its own.
        Best(&[0, 1, 3, 2, 4], 25),
        Cell(1, 26),
        Cell(2, 9),
        Cell(7, 0),
        Cell(14, 1),
        Cell(31, 1),
        // Task 2 has no deadline, but behind 0 and 1 it would make task 3 late. One set in two orders has one sum and two totals.
        Place(&[], 1, Err(NotReady)),
        Place(&[0], 1, Ok(())),
        Place(&[0], 2, Ok(())),
        Place(&[0], 3, Ok(())),
        Place(&[0, 1], 2, Err(NoOrderSo)),
        Place(&[0, 1], 1, Err(Placed)),
        Place(&[0, 1, 3], 4, Err(NotReady)),
        Finish(&[0], &[0, 1, 3, 2, 4], 25),
        Finish(&[0, 2], &[0, 2, 3, 1, 4], 17),
        Tally(&[0, 1, 3], 11, 16, 25, 17),
        Tally(&[0, 3, 1], 11, 16, 25, 11),
        Saved(
            b"0100010007F7\n010002000AF3\n010002000AF3\n0100040008F3\n0100010003FB\n\
            020001FD\n020002FC\n020003FB\n020104F9\n020204F8\n020304F7\n030300001EDC\n\
            040100001200000900001BC5\n040200000C000015000018C1\n0501FA\n0502F9\n",
        ),
        OnBook(Ramp(1, 12, 9, 27), Ok(())),
        Keenest(Some(1)),
    ],
    // A smaller worth over fewer ticks: 7 over 2 against 30 over 10.
    &[
        OnSheet(Task(10, 10), Ok(())),
        OnSheet(Task(2, 2), Ok(())),
        OnSheet(Soft(0), Ok(())),
        OnSheet(Soft(1), Ok(())),
        OnBook(Ramp(0, 30, 5, 20), Ok(())),
        OnBook(Step(1, 0, 7), Ok(())),
        Keenest(Some(1)),
        OnBook(Weight(0, 2), Ok(())),
        Keenest(Some(0)),
        // Frames stand kind by kind, and not task by task.
        Saved(
            b"01000A000AEB\n0100020002FB\n040000001E000005000014C5\n0500FB\n0501FA\n0601000000000007F2\n070002F7\n",
        ),
    ],
    // Of equal totals the one with the smaller number first, also where there is nothing to earn.
    &[
        OnSheet(Task(3, 3), Ok(())),
        OnSheet(Task(2, 2), Ok(())),
        OnSheet(Task(2, 2), Ok(())),
        Best(&[0, 1, 2], 0),
        OnSheet(Soft(1), Ok(())),
        OnSheet(Soft(2), Ok(())),
        OnBook(Ramp(1, 12, 2, 8), Ok(())),
        OnBook(Ramp(2, 12, 2, 8), Ok(())),
        Best(&[1, 2, 0], 20),
        Cell(2, 9),
        Cell(4, 9),
    ],
    // A ramp is worth its peak up to the knee, then falls, rounded down, to 0 at the foot.
    &[
        OnBook(Ramp(0, 12, 7, 10), Ok(())),
        Worth(0, 0, 12),
        Worth(0, 7, 12),
        Worth(0, 8, 8),
        Worth(0, 9, 4),
        Worth(0, 10, 0),
        Worth(1, 0, 0),
        Worth(16, 0, 0),
        // The bounds of its numbers; what is refused changes nothing, and a new ramp replaces the old.
        OnBook(Ramp(0, 12, 10, 10), Err(BookRule)),
        OnBook(Ramp(0, 1000001, 7, 10), Err(BookRule)),
        OnBook(Ramp(0, 12, 7, 1048576), Err(BookRule)),
        OnBook(Ramp(16, 12, 10, 10), Err(UnknownTask)),
        Worth(0, 8, 8),
        OnBook(Ramp(0, 1000000, 0, 1048575), Ok(())),
        Worth(0, 1, 999999),
        Worth(0, 1048574, 0),
        Worth(0, 4294967295, 0),
    ],
    // A step is worth its worth up to and including its time.
    &[
        OnBook(Step(0, 5, 9), Ok(())),
        OnBook(Step(0, 8, 4), Ok(())),
        Worth(0, 5, 9),
        Worth(0, 6, 4),
        Worth(0, 8, 4),
        Worth(0, 9, 0),
        // A further one must reach further and be worth no more; a seventh is refused, by the rule where it breaks that too.
        OnBook(Step(0, 8, 2), Err(BookRule)),
        OnBook(Step(0, 9, 5), Err(BookRule)),
        OnBook(Step(0, 1048576, 4), Err(BookRule)),
        OnBook(Step(0, 9, 4), Ok(())),
        Worth(0, 9, 4),
        OnBook(Step(0, 10, 3), Ok(())),
        OnBook(Step(0, 11, 3), Ok(())),
        OnBook(Step(0, 1048575, 0), Ok(())),
        OnBook(Step(0, 1048575, 0), Err(BookRule)),
        OnBook(DropSteps(16), Err(UnknownTask)),
        OnBook(Step(16, 0, 0), Err(UnknownTask)),
        Worth(0, 11, 3),
        OnBook(DropSteps(0), Ok(())),
        Worth(0, 5, 0),
        OnBook(Step(0, 0, 1000001), Err(BookRule)),
        OnBook(Step(0, 0, 1000000), Ok(())),
        OnBook(Step(0, 1, 6), Ok(())),
        OnBook(Step(0, 2, 5), Ok(())),
        OnBook(Step(0, 3, 4), Ok(())),
        OnBook(Step(0, 4, 3), Ok(())),
        OnBook(Step(0, 5, 2), Ok(())),
        OnBook(Step(0, 6, 1), Err(StepsFull)),
        OnBook(Step(0, 6, 3), Err(BookRule)),
        Worth(0, 6, 0),
    ],
    // A weight multiplies what was rounded; worths stop at the top.
    &[
        OnBook(Ramp(0, 10, 0, 3), Ok(())),
        OnBook(Weight(0, 3), Ok(())),
        Worth(0, 1, 18),
        OnBook(Weight(0, 0), Err(BookRule)),
        OnBook(Weight(0, 17), Err(BookRule)),
        OnBook(Weight(16, 1), Err(UnknownTask)),
        OnBook(Weight(0, 16), Ok(())),
        Worth(0, 1, 96),
        OnBook(Step(0, 1, 62494), Ok(())),
        Worth(0, 1, 1000000),
        OnBook(Weight(0, 1), Ok(())),
        Worth(0, 1, 62500),
        OnBook(Ramp(0, 1000000, 0, 3), Ok(())),
        Worth(0, 0, 1000000),
        OnBook(Weight(0, 2), Ok(())),
        Worth(0, 0, 1000000),
    ],
    // The high byte of a number comes first, and the last byte of a frame may be 00.
    &[
        OnSheet(Task(1, 65535), Ok(())),
        OnSheet(Task(1, 2), Ok(())),
        OnSheet(Hard(0, 1048575), Ok(())),
        OnBook(Ramp(0, 1000000, 0, 1048575), Ok(())),
        Saved(b"010001FFFF00\n0100010002FC\n03000FFFFFF0\n04000F42400000000FFFFF5E\n"),
    ],
    // Links by the task that they begin with.
    &[
        OnSheet(Task(1, 1), Ok(())),
        OnSheet(Task(1, 1), Ok(())),
        OnSheet(Task(1, 1), Ok(())),
        OnSheet(Link(2, 0), Ok(())),
        OnSheet(Link(0, 1), Ok(())),
        Saved(b"0100010001FD\n0100010001FD\n0100010001FD\n020001FD\n020200FC\n"),
    ],
    // What the book holds is saved without a task too, steps by time.
    &[
        OnBook(Weight(15, 3), Ok(())),
        OnBook(Ramp(15, 10, 0, 3), Ok(())),
        OnBook(Step(0, 5, 9), Ok(())),
        OnBook(Step(0, 8, 4), Ok(())),
        Saved(b"040F00000A000000000003E0\n0600000005000009EC\n0600000008000004EE\n070F03E7\n"),
        // Steps that were dropped, and a weight of 1, are not.
        OnBook(DropSteps(0), Ok(())),
        OnBook(Weight(15, 1), Ok(())),
        Saved(b"040F00000A000000000003E0\n"),
    ],
    // A line of each kind; and numbers that no sheet or book takes.
    &[
        Frames(
            b"010001FFFF00\n020F00EF\n03000FFFFFF0\n04020F424000000700000A58\n0502F9\n0600010203040506E5\n070F03E7\n\
            0100000000FF\n05FFFC\n",
            &[
                Frame::Task { min: 1, max: 65535 },
                Frame::Link { a: 15, b: 0 },
                Frame::Hard {
                    t: 0,
                    deadline: 1048575,
                },
                Frame::Ramp {
                    t: 2,
                    peak: 1000000,
                    knee: 7,
                    foot: 10,
                },
                Frame::Soft { t: 2 },
                Frame::Step {
                    t: 0,
                    until: 66051,
                    worth: 263430,
                },
                Frame::Weight { t: 15, weight: 3 },
                Frame::Task { min: 0, max: 0 },
                Frame::Soft { t: 255 },
            ],
        ),
        // Pairs of digits, then perhaps a blank and a note of bytes 20 to 7E, then 0A, which the last one lacks.
        Refused(
            b"\n note\n0502f9\n0502F90\n0502F9note\n0502F9\r\n0502F9 \x1F\n0502F9 \x7F\n0502F9",
            NotALine,
        ),
        Note(b"0502F9\n", None),
        Note(b"0502F9 \n", Some(b"")),
        Note(b"0502F9  a~\n", Some(b" a~")),
        // What is no line is refused before a wrong sum, and that before a wrong frame.
        Refused(b"0502F8 \x7F\n0502f8\n08f8\n", NotALine),
        Refused(b"0502F8\n05 02F9\n08F7\n02000100FE\n", BadSum),
        // A frame is of a known kind, and has the length of its kind.
        Refused(
            b"00\n08F8\n0200FE\n02000100FD\n040200000C00000700000A00DD\n040200000C00000700000A00000000DD\n",
            BadFrame,
        ),
        // A name is a note without the blanks at its end. Where nothing is left of it, it is a line of the names, or else empty.
        Names(b"", b"first\n", b""),
        Names(
            b"0100010001FD one\n0100010001FD  two  \n0100010001FD   \n0100010001FD\n0100010001FD\n0100010001FD\n",
            b"first\nsecond\nthird \n fourth\nlast  ",
            b"one\n two\nthird\n fourth\nlast\n\n",
        ),
        // Lines whose frames begin with 01 count, whether or not they can be read; other lines don't, nor a piece without 0A.
        Names(
            b"0100010001FE sum\n020001FD link\n01 frame\n0100010001FD byte\x7F\n\nnone\n0100010001FD\n0100010001FD piece",
            b"first\nsecond\nthird\nfourth\n",
            b"sum\nframe\nthird\n",
        ),
    ],
    // Whole files, each with the line that answers it: the best order and its total.
    &[
        Answer(b"", b"2000000000E0\n"),
        Answer(
            b"0100010001FD redraw panel\n0100050005F5 load level\n0100020002FB reply on bus\n0301000006F6 by 6\n0502F9\n\
            040200000C00000700000ADD worth 12 by 7\n",
            b"200301020000000CCE\n",
        ),
        Answer(
            b"0100010007F7\n010002000AF3\n010002000AF3\n0100040008F3\n0100010003FB\n\
            020001FD\n020002FC\n020003FB\n020104F9\n020204F8\n020304F7\n030300001EDC\n\
            040100001200000900001BC5\n040200000C000015000018C1\n0501FA\n0502F9\n",
            b"20050001030204000019B8\n",
        ),
        // No order is lawful.
        Answer(
            b"0100010001FD\n0100050005F5\n0301000004F8\n",
            b"2F050A0000C2\n",
        ),
        // The first line at fault: no line, a wrong sum, a circle and a weight of 0.
        Answer(b"\n", b"2F010B0001C4\n"),
        Answer(b"0100010001FD\n0502F8\n\n", b"2F020C0002C1\n"),
        Answer(
            b"0100010001FD\n0100010001FD\n020001FD\n020100FD\n070000F9\n",
            b"2F03040004C6\n",
        ),
        Answer(b"070000F9\n020100FD\n", b"2F04080001C4\n"),
    ],
];

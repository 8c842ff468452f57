// A call or a question on a sheet and a standard book, or a question on sheet files, with the answer that it must have.
use common::Refusal;
use file::Frame;

#[derive(Clone, Copy, Debug)]
pub enum Entry {
    OnSheet(sheet::Call, Result<(), Refusal>),
    OnBook(book::Call, Result<(), Refusal>),
    // Whether the link from the first to the second is there.
    Linked(u8, u8, bool),
    Expected(u8, u32),
    // Whether the second is in the up-set of the first.
    Above(u8, u8, bool),
    // None where the task isn't hard.
    Margin(u8, Option<i64>),
    Fits(bool),
    // None where no task is hard.
    Tightest(Option<u8>),
    // What the task is worth at the time.
    Worth(u8, u32, u32),
    // None where no task is soft.
    Keenest(Option<u8>),
    // The best order and its total.
    Best(&'static [u8], u32),
    // No order is lawful.
    NoOrder,
    // What the cell of the set with this number holds.
    Cell(u16, u32),
    // Where these tasks are placed in turn, each accepted, placing the task is then answered so.
    Place(&'static [u8], u8, Result<(), Refusal>),
    // Where these tasks are placed in turn, finishing gives this order, which weighs this much.
    Finish(&'static [u8], &'static [u8], u32),
    // Where these tasks are placed in turn, the tally: their set by its number, how long they are expected to take and take at
    // most, and their total.
    Tally(&'static [u8], u16, u32, u32, u32),
    // The text that is saved.
    Saved(&'static [u8]),
    // The lines of the file are read as these frames.
    Frames(&'static [u8], &'static [Frame]),
    // Each line of the file is refused so.
    Refused(&'static [u8], Refusal),
    // The line is read, and has this note.
    Note(&'static [u8], Option<&'static [u8]>),
    // By a sheet file and a names file, the names of the tasks in turn, each with 0A behind it; no further number has one.
    Names(&'static [u8], &'static [u8], &'static [u8]),
    // The line that answers the file.
    Answer(&'static [u8], &'static [u8]),
}

// The worked sheets, with their books, plans, rows and files, run through the code.
use crate::entry::Entry;
use crate::worked;
use answer::{LINE, answer};
use book::{Book, StandardBook, keenest};
use common::{Expected, Margin, Maximum, Refusal, TaskSet};
use file::Frame;
use row::{OpenRow, Tally};
use sheet::{Load, Sheet};

// What planning answers and leaves, where the sheet has at most six tasks.
#[derive(Clone, Copy)]
struct Plan {
    answer: Result<u32, Refusal>,
    cells: [u32; 64],
    order: [u8; 6],
}

impl Plan {
    fn of(sheet: &Sheet, book: &StandardBook) -> Plan {
        let mut cells = [0; 64];
        let mut order = [0; 6];
        let answer = plan::plan(sheet, book, &mut cells, &mut order);
        Plan {
            answer,
            cells,
            order,
        }
    }
}

// The row with these tasks placed in turn, or nothing where one of them is refused.
fn laid(sheet: &Sheet, tasks: &[u8]) -> Option<OpenRow> {
    let (mut row, begun) = row::begin(sheet);
    let mut accepted = begun.is_ok();
    for t in tasks {
        accepted = accepted && row.place(*t).is_ok();
    }
    if accepted { Some(row) } else { None }
}

// Whether these tasks can be placed in turn, and finishing then gives the order, which weighs so much.
fn finishes(sheet: &Sheet, book: &StandardBook, tasks: &[u8], order: &[u8], weight: u32) -> bool {
    match laid(sheet, tasks) {
        Some(row) => {
            let full = row.finish();
            full.order() == order && full.weigh(book) == weight
        }
        None => false,
    }
}

// Whether no row can be begun, and what is answered beside the refusal is an empty row on a sheet without tasks.
fn begins_none(sheet: &Sheet) -> bool {
    let (row, begun) = row::begin(sheet);
    begun == Err(Refusal::NoOrder) && row.order().is_empty() && row.sheet().count() == 0
}

// What stands in memory that is lent to saving.
const MARK: u8 = b'x';

const LF: u8 = 0x0a;

// What saving answers in so much memory, and what it leaves there.
fn saved(
    sheet: &Sheet,
    book: &StandardBook,
    room: usize,
) -> (Option<Result<usize, Refusal>>, [u8; 256]) {
    let mut memory = [MARK; 256];
    let answer = memory
        .get_mut(..room)
        .map(|lent| file::save(sheet, book, lent));
    (answer, memory)
}

// Whether the text is saved, in as much memory as it takes and in more, of which the rest stays as it was; and in less, saving is
// refused and writes nothing.
fn saves(sheet: &Sheet, book: &StandardBook, text: &[u8]) -> bool {
    let len = text.len();
    let fits = [len, len + 3].iter().all(|room| {
        let (answer, memory) = saved(sheet, book, *room);
        answer == Some(Ok(len))
            && memory.starts_with(text)
            && memory.iter().skip(len).all(|byte| *byte == MARK)
    });
    let (answer, memory) = saved(sheet, book, len.saturating_sub(1));
    fits && (len == 0
        || answer == Some(Err(Refusal::Memory)) && memory.iter().all(|byte| *byte == MARK))
}

// Whether the lines of the file are read as these frames.
fn reads(file: &[u8], frames: &[Frame]) -> bool {
    let mut frames = frames.iter();
    let mut lines = file.split_inclusive(|byte| *byte == LF);
    lines.all(|line| match (file::read(line), frames.next()) {
        (Ok(said), Some(frame)) => said.frame == *frame,
        _ => false,
    }) && frames.next().is_none()
}

// Whether each line of the file is refused so.
fn refuses(file: &[u8], refusal: Refusal) -> bool {
    file.split_inclusive(|byte| *byte == LF)
        .all(|line| file::read(line) == Err(refusal))
}

// Whether these are the names of the tasks, each with 0A behind it, and no further number has one.
fn names(file: &[u8], names: &[u8], answers: &[u8]) -> bool {
    let mut answers = answers.split_inclusive(|byte| *byte == LF);
    (0..=u8::MAX).all(|t| match answers.next() {
        Some([name @ .., LF]) => file::name(file, names, t) == Ok(name),
        Some(_) => false,
        None => file::name(file, names, t) == Err(Refusal::UnknownTask),
    })
}

// Whether the file is answered with the line.
fn answers(file: &[u8], line: &[u8]) -> bool {
    let mut memory = [MARK; LINE];
    match answer(file, &mut memory) {
        Ok(len) => memory.get(..len) == Some(line),
        Err(_) => false,
    }
}

// Makes the call or asks the question, and says whether it has its answer. Entries are data, not closures: the definitions read
// them.
fn right(sheet: &mut Sheet, book: &mut StandardBook, entry: Entry) -> bool {
    match entry {
        Entry::OnSheet(call, answer) => sheet.make(call).map(|_| ()) == answer,
        Entry::OnBook(call, answer) => book.make(call) == answer,
        Entry::Linked(a, b, yes) => sheet.linked(a, b) == Ok(yes),
        Entry::Expected(t, ticks) => sheet.get(t).is_ok_and(|task| task.expected().0 == ticks),
        Entry::Above(t, u, yes) => sheet.up_set(t).is_ok_and(|set| set.contains(u) == yes),
        Entry::Margin(t, left) => sheet
            .margin(t)
            .is_ok_and(|margin| margin.map(|Margin(ticks)| ticks) == left),
        Entry::Fits(yes) => sheet.fits() == yes,
        Entry::Tightest(least) => sheet.tightest() == least,
        Entry::Worth(t, at, worth) => book.worth(t, Expected::from(at)) == worth,
        Entry::Keenest(best) => keenest(sheet, book) == best,
        Entry::Best(order, total) => {
            let plan = Plan::of(sheet, book);
            // A row that is laid as the best order takes each of its tasks.
            plan.answer == Ok(total)
                && plan.order.starts_with(order)
                && finishes(sheet, book, order, order, total)
        }
        Entry::NoOrder => {
            Plan::of(sheet, book).answer == Err(Refusal::NoOrder) && begins_none(sheet)
        }
        Entry::Cell(set, value) => Plan::of(sheet, book).cells.get(usize::from(set))
            == Some(&value),
        Entry::Place(tasks, t, answer) => match laid(sheet, tasks) {
            Some(mut row) => row.place(t) == answer,
            None => false,
        },
        Entry::Finish(tasks, order, weight) => finishes(sheet, book, tasks, order, weight),
        Entry::Tally(tasks, placed, expected, maximum, total) => match laid(sheet, tasks) {
            Some(row) => {
                row.tally(book)
                    == Tally {
                        placed: TaskSet::from(placed),
                        load: Load {
                            expected: Expected::from(expected),
                            maximum: Maximum::from(maximum),
                        },
                        total,
                    }
            }
            None => false,
        },
        Entry::Saved(text) => saves(sheet, book, text),
        Entry::Frames(file, frames) => reads(file, frames),
        Entry::Refused(file, refusal) => refuses(file, refusal),
        Entry::Note(line, note) => file::read(line).is_ok_and(|said| said.note == note),
        Entry::Names(file, names_file, answers) => names(file, names_file, answers),
        Entry::Answer(file, line) => answers(file, line),
    }
}

#[test]
fn the_worked_sheets(rt: HostRuntime) {
    for entries in worked() {
        let mut sheet = Sheet::new();
        let mut book = StandardBook::new();
        for entry in *entries {
            assert!(rt; right(&mut sheet, &mut book, *entry));
        }
    }
}

#[test]
fn a_complete_graph_of_sixteen_tasks(rt: HostRuntime) {
    let mut sheet = Sheet::new();
    for _ in 0..16 {
        assert!(rt; sheet.task(1, 1).is_ok());
    }
    for b in 1..16u8 {
        for a in 0..b {
            assert_eq!(rt; sheet.link(a, b), Ok(()));
        }
    }
    let before = sheet;
    assert_eq!(rt; sheet.task(0, 0), Err(Refusal::SheetFull));
    assert_eq!(rt; sheet.link(15, 0), Err(Refusal::Circle));
    assert!(rt; sheet == before);
    assert!(rt; matches!(sheet.up_set(15), Ok(set) if set.len() == 16 && set.lowest() == Some(0)));
    assert_eq!(rt; sheet.hard(15, 20), Ok(()));
    assert_eq!(rt; sheet.margin(15), Ok(Some(Margin(4))));
    assert!(rt; sheet != before);
}

// The rows of a sheet: what is answered on each.
use crate::shown::{number, print_tasks};
use book::StandardBook;
use row::{OpenRow, Tally, begin};
use sheet::{Load, Sheet};
use std::io;

// On a sheet of more tasks no rows are laid.
const MOST_LAID: u8 = 5;

// Five tasks have no more rows: 1, 5, 20, 60, 120 and 120 of none to five tasks.
const MOST_ROWS: usize = 326;

// The row of these tasks, laid in turn, up to the first that is refused.
fn lay(sheet: &Sheet, tasks: &[u8]) -> OpenRow {
    let (mut row, _) = begin(sheet);
    for t in tasks {
        if row.place(*t).is_err() {
            break;
        }
    }
    row
}

fn print_figures(rt: &impl Print, tally: Tally) -> io::Result<()> {
    let Tally {
        placed,
        load: Load { expected, maximum },
        total,
    } = tally;
    println!(rt; " {} {} {} {total}", placed.index(), expected.0, maximum.0)
}

// What placing each task behind the row answers, and one that is no task.
fn print_places(rt: &impl Print, sheet: &Sheet, tasks: &[u8]) -> io::Result<()> {
    print!(rt; "place ")?;
    print_tasks(rt, tasks)?;
    for t in 0..=sheet.count() {
        print!(rt; " {}", number(lay(sheet, tasks).place(t)))?;
    }
    println!(rt; "")
}

fn print_trials(rt: &impl Print, book: &StandardBook, row: &OpenRow, count: u8) -> io::Result<()> {
    for t in 0..=count {
        let mut tally = row.tally(book);
        let trial = row.trial(book, &mut tally, t);
        print!(rt; "trial ")?;
        print_tasks(rt, row.order())?;
        print!(rt; " {t} {}", trial.refusal())?;
        print_figures(rt, trial.tally())?;
    }
    Ok(())
}

fn print_row(rt: &impl Print, sheet: &Sheet, book: &StandardBook, tasks: &[u8]) -> io::Result<()> {
    let row = lay(sheet, tasks);
    print!(rt; "tally ")?;
    print_tasks(rt, tasks)?;
    print_figures(rt, row.tally(book))?;
    print_places(rt, sheet, tasks)?;
    print_trials(rt, book, &row, sheet.count())?;
    let full = row.finish();
    print!(rt; "finish ")?;
    print_tasks(rt, tasks)?;
    print!(rt; " ")?;
    print_tasks(rt, full.order())?;
    println!(rt; " {}", full.weigh(book))
}

// Each row that can be laid, and behind it those that begin with it, by the number of the task that comes next.
pub fn print_rows(
    rt: &(impl Print + AllocGlobal),
    sheet: &Sheet,
    book: &StandardBook,
) -> io::Result<()> {
    let (_, begun) = begin(sheet);
    println!(rt; "begin {}", number(begun))?;
    if begun.is_err() || sheet.count() > MOST_LAID {
        return Ok(());
    }
    let mut waiting = Vec::new(rt.alloc());
    waiting.push(Vec::new(rt.alloc()))?;
    for _ in 0..MOST_ROWS {
        let Some(tasks) = waiting.pop() else {
            break;
        };
        print_row(rt, sheet, book, &tasks)?;
        for t in (0..sheet.count()).rev() {
            if lay(sheet, &tasks).place(t).is_ok() {
                let mut longer = tasks.clone()?;
                longer.push(t)?;
                waiting.push(longer)?;
            }
        }
    }
    Ok(())
}

// A row that is laid by hand.
use crate::names::Names;
use crate::shown::{OrDash, print_refusal};
use crate::timeline::print_order;
use crate::week::{BY_HAND, Move};
use book::StandardBook;
use row::{OpenRow, Tally};
use sheet::{Load, Sheet};
use std::io;

fn print_place(rt: &impl Print, names: Names, row: &mut OpenRow, t: u8) -> io::Result<()> {
    print!(rt; "  place {t}, {}: ", names.of(t))?;
    match row.place(t) {
        Ok(()) => println!(rt; "accepted"),
        Err(refusal) => print_refusal(rt, refusal),
    }
}

// The figures of the row with task t behind it; or the number with which placing the task would be refused.
fn print_trial(
    rt: &impl Print,
    names: Names,
    row: &OpenRow,
    book: &StandardBook,
    t: u8,
) -> io::Result<()> {
    print!(rt; "  try {t}, {}: ", names.of(t))?;
    let mut tally = row.tally(book);
    let trial = row.trial(book, &mut tally, t);
    if trial.refusal() > 0 {
        return println!(rt; "refused with {}", trial.refusal());
    }
    let Tally {
        placed: _,
        load: Load { expected, maximum },
        total,
    } = trial.tally();
    println!(rt;
        "expected {}, maximum {}, total {total}",
        expected.0, maximum.0
    )
}

// The moves by hand, and the finished row with its weight beside the plan's total; or why no row begins.
pub fn print_row(
    rt: &impl Print,
    names: Names,
    sheet: &Sheet,
    book: &StandardBook,
    total: Option<u32>,
) -> io::Result<()> {
    let (mut row, begun) = row::begin(sheet);
    if let Err(refusal) = begun {
        print!(rt; "No row: ")?;
        return print_refusal(rt, refusal);
    }
    println!(rt; "By hand")?;
    for &step in BY_HAND {
        match step {
            Move::Place(t) => print_place(rt, names, &mut row, t)?,
            Move::Try(t) => print_trial(rt, names, &row, book, t)?,
        }
    }
    let full = row.finish();
    println!(rt; "Row   name            expected  maximum deadline    worth")?;
    print_order(rt, names, sheet, book, full.order())?;
    println!(rt;
        "Weighs: {}, where the plan totals {}",
        full.weigh(book),
        OrDash(total)
    )
}

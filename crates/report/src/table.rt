// A sheet as a table, and what stands out in it.
use crate::names::Names;
use crate::shown::{OrDash, worth};
use book::{StandardBook, keenest};
use common::{MOST, Margin};
use sheet::{Sheet, Task};
use std::io;

fn print_task(
    rt: &impl Print,
    names: Names,
    sheet: &Sheet,
    book: &StandardBook,
    t: u8,
) -> io::Result<()> {
    let (Ok(task), Ok(margin), Ok(above)) = (sheet.get(t), sheet.margin(t), sheet.up_set(t)) else {
        return Ok(());
    };
    let name = names.of(t);
    let expected = task.expected().0;
    let Task {
        min,
        max,
        kind,
        before,
    } = task;
    let deadline = OrDash(kind.deadline());
    let left = OrDash(margin.map(|Margin(left)| left));
    let earliest = sheet.loads(above).expected;
    let worth = worth(book, t, kind, earliest);
    print!(rt;
        "{t:>4}  {name:<15} {min:>5} {max:>5} {expected:>8}  {kind:<5}{deadline:>9}{left:>9}"
    )?;
    print!(rt; "{:>9}{worth:>9}", earliest.0)?;
    for p in (0..MOST).filter(|&p| before.contains(p)) {
        print!(rt; " {p}")?;
    }
    println!(rt; "")
}

fn print_choice(rt: &impl Print, names: Names, what: &str, choice: Option<u8>) -> io::Result<()> {
    let Some(t) = choice else {
        return println!(rt; "{what}: none");
    };
    println!(rt; "{what}: {t}, {}", names.of(t))
}

pub fn print_sheet(
    rt: &impl Print,
    names: Names,
    sheet: &Sheet,
    book: &StandardBook,
) -> io::Result<()> {
    println!(rt;
        "Task  name              min   max expected  kind  deadline   margin earliest    worth after"
    )?;
    for t in 0..sheet.count() {
        print_task(rt, names, sheet, book, t)?;
    }
    let fits = if sheet.fits() { "yes" } else { "no" };
    println!(rt; "Fits: {fits}")?;
    print_choice(rt, names, "Tightest", sheet.tightest())?;
    print_choice(rt, names, "Keenest", keenest(sheet, book))
}

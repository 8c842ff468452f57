// The tasks of a sheet, and what the sheet and its book answer.
use book::{Book, StandardBook, keenest};
use common::{Expected, MOST, Margin};
use sheet::Sheet;
use std::io;

// When worths are asked.
const TIMES: [u32; 13] = [
    0,
    1,
    2,
    5,
    10,
    20,
    50,
    100,
    1000,
    65_535,
    1_048_574,
    1_048_575,
    u32::MAX,
];

fn print_task(rt: &impl Print, sheet: &Sheet, t: u8) -> io::Result<()> {
    let (Ok(task), Ok(margin), Ok(above)) = (sheet.get(t), sheet.margin(t), sheet.up_set(t)) else {
        return Ok(());
    };
    let (expected, maximum) = (task.expected(), task.maximum());
    print!(rt; "task {t} {} {} {}", expected.0, maximum.0, above.index())?;
    match margin {
        Some(Margin(left)) => println!(rt; " {left}"),
        None => println!(rt; " -"),
    }
}

fn print_choice(rt: &impl Print, what: &str, choice: Option<u8>) -> io::Result<()> {
    match choice {
        Some(t) => println!(rt; "{what} {t}"),
        None => println!(rt; "{what} -"),
    }
}

pub fn print_sheet(rt: &impl Print, sheet: &Sheet, book: &StandardBook) -> io::Result<()> {
    for t in 0..sheet.count() {
        print_task(rt, sheet, t)?;
    }
    let fits = if sheet.fits() { "yes" } else { "no" };
    println!(rt; "fits {fits}")?;
    print_choice(rt, "tightest", sheet.tightest())?;
    print_choice(rt, "keenest", keenest(sheet, book))
}

// The worths of each number that a task may have, and of one more.
pub fn print_worths(rt: &impl Print, book: &StandardBook) -> io::Result<()> {
    for t in 0..=MOST {
        print!(rt; "worth {t}")?;
        for at in TIMES {
            print!(rt; " {}", book.worth(t, Expected::from(at)))?;
        }
        println!(rt; "")?;
    }
    Ok(())
}

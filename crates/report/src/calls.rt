// What groups call on a sheet and on its book, and what each call answers.
use crate::names::Names;
use crate::recorded::Recorded;
use crate::shown::print_refusal;
use crate::week::Group;
use book::StandardBook;
use common::Refusal;
use std::{fmt, io};

// A call and its answer; a new task answers its number.
fn print_answer(
    rt: &impl Print,
    names: Names,
    call: &impl fmt::Display,
    answer: Result<Option<u8>, Refusal>,
) -> io::Result<()> {
    print!(rt; "  {call}: ")?;
    match answer {
        Ok(Some(t)) => println!(rt; "{t}, {}", names.of(t)),
        Ok(None) => println!(rt; "accepted"),
        Err(refusal) => print_refusal(rt, refusal),
    }
}

pub fn print_group(
    rt: &impl Print,
    names: Names,
    recorded: &mut Recorded,
    book: &mut StandardBook,
    group: &Group,
) -> io::Result<()> {
    println!(rt; "{}", group.name)?;
    for &call in group.tasks {
        print_answer(rt, names, &call, recorded.make(call)?)?;
    }
    for &call in group.curves {
        print_answer(rt, names, &call, book.make(call).map(|()| None))?;
    }
    Ok(())
}

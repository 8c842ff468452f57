// The texts, answered by the code, and files of the greatest length and of a byte more.
use crate::{books, lines, plans, sheets};
use answer::{LINE, answer};
use common::Refusal;
use std::array;

// What stands in memory that is lent to answering.
const MARK: u8 = b'x';

const ROOM: usize = LINE + 3;

const LF: u8 = 0x0a;

// No file of more bytes is loaded.
const LONGEST: usize = 65535;

const TOO_LONG: &[u8] = b"2F010E0000C2\n";

const ORDER_OF_ONE: &[u8] = b"200100000000DF\n";

// What answering the file says in so much memory, and what it leaves there.
fn answered(file: &[u8], room: usize) -> (Option<Result<usize, Refusal>>, [u8; ROOM]) {
    let mut memory = [MARK; ROOM];
    let said = memory.get_mut(..room).map(|lent| answer(file, lent));
    (said, memory)
}

// Whether the line answers the file, in as much memory as it takes and in more, of which the rest stays as it was; and in a byte
// less, answering is refused and writes nothing.
fn answers(file: &[u8], line: &[u8]) -> bool {
    let len = line.len();
    let fits = [len, ROOM].iter().all(|room| {
        let (said, memory) = answered(file, *room);
        said == Some(Ok(len))
            && memory.starts_with(line)
            && memory.iter().skip(len).all(|byte| *byte == MARK)
    });
    let (said, memory) = answered(file, len.saturating_sub(1));
    fits && said == Some(Err(Refusal::Memory)) && memory == [MARK; ROOM]
}

// The place in the table of the first text that its line does not answer.
fn first_wrong(texts: &[(&[u8], &[u8])]) -> Option<usize> {
    texts.iter().position(|(file, line)| !answers(file, line))
}

#[test]
fn texts(rt: HostRuntime) {
    assert_eq!(rt; first_wrong(&lines::TEXTS), None);
}

#[test]
fn frames(rt: HostRuntime) {
    assert_eq!(rt; first_wrong(&lines::FRAMES), None);
}

#[test]
fn first_faults(rt: HostRuntime) {
    assert_eq!(rt; first_wrong(&lines::FIRST), None);
}

#[test]
fn tasks(rt: HostRuntime) {
    assert_eq!(rt; first_wrong(&sheets::TASKS), None);
}

#[test]
fn links(rt: HostRuntime) {
    assert_eq!(rt; first_wrong(&sheets::LINKS), None);
}

#[test]
fn kinds(rt: HostRuntime) {
    assert_eq!(rt; first_wrong(&sheets::KINDS), None);
}

#[test]
fn ramps(rt: HostRuntime) {
    assert_eq!(rt; first_wrong(&books::RAMPS), None);
}

#[test]
fn steps(rt: HostRuntime) {
    assert_eq!(rt; first_wrong(&books::STEPS), None);
}

#[test]
fn weights(rt: HostRuntime) {
    assert_eq!(rt; first_wrong(&books::WEIGHTS), None);
}

#[test]
fn orders(rt: HostRuntime) {
    assert_eq!(rt; first_wrong(&plans::ORDERS), None);
}

#[test]
fn many_tasks(rt: HostRuntime) {
    assert_eq!(rt; first_wrong(&plans::MANY), None);
}

#[test]
fn no_lawful_order(rt: HostRuntime) {
    assert_eq!(rt; first_wrong(&plans::UNLAWFUL), None);
}

// One line, a task's with a long note.
#[test]
fn a_line_of_65535_bytes(rt: HostRuntime) {
    let mut file = [b'~'; LONGEST];
    file[..13].copy_from_slice(b"0100010001FD ");
    assert!(rt; answers(&file, b"2F010B0001C4\n"));
    file[LONGEST - 1] = LF;
    assert!(rt; answers(&file, ORDER_OF_ONE));
}

// The byte at this place of a task's line, of 15 bytes, and lines of 7 that each mark it as soft.
fn soft_again(at: usize) -> u8 {
    if at < 15 {
        b"0100010001FD ~\n"[at]
    } else {
        b"0500FB\n"[(at - 15) % 7]
    }
}

// 9,361 lines, of which the last one then has a wrong sum, and then marks a task that is not there.
#[test]
fn lines_of_65535_bytes(rt: HostRuntime) {
    let mut file: [u8; LONGEST] = array::from_fn(soft_again);
    assert!(rt; answers(&file, ORDER_OF_ONE));
    file[LONGEST - 4] = b'1';
    assert!(rt; answers(&file, b"2F020C24910E\n"));
    file[LONGEST - 2] = b'A';
    assert!(rt; answers(&file, b"2F0301249118\n"));
}

// Whatever they hold: lines, one line, or none.
#[test]
fn files_of_65536_bytes(rt: HostRuntime) {
    let lines: [u8; LONGEST + 1] = array::from_fn(soft_again);
    assert!(rt; answers(&lines, TOO_LONG));
    let mut line = [b'~'; LONGEST + 1];
    line[..13].copy_from_slice(b"0100010001FD ");
    line[LONGEST] = LF;
    assert!(rt; answers(&line, TOO_LONG));
    let none = [LF; LONGEST + 1];
    assert!(rt; answers(&none, TOO_LONG));
}

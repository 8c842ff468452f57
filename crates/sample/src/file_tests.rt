use crate::hard_task;
use book::StandardBook;
use common::Refusal;
use file::{Frame, read, reloaded, save};
use sheet::Sheet;
use std::array;

const LF: u8 = 0x0a;

// No sheet and book have a longer text than the full ones.
const LONGEST: usize = 3864;

// Sixteen hard tasks with all links, and for each a ramp, six steps and the weight 16. Were a call refused, they would be a sheet
// and a book of nothing, with which no test passes.
fn full() -> (Sheet, StandardBook) {
    make_full().unwrap_or((Sheet::new(), StandardBook::new()))
}

fn make_full() -> Result<(Sheet, StandardBook), Refusal> {
    let mut sheet = Sheet::new();
    let mut book = StandardBook::new();
    for t in 0..16 {
        sheet.task(300, 65535)?;
        sheet.hard(t, 1048575)?;
        for a in 0..t {
            sheet.link(a, t)?;
        }
        book.ramp(t, 1000000, 400, 1400)?;
        for until in 1..=6 {
            book.step(t, until, 70000 - until)?;
        }
        book.weight(t, 16)?;
    }
    Ok((sheet, book))
}

#[test]
fn a_text_fills_just_its_length(rt: HostRuntime) {
    let (sheet, book) = full();
    let mut longer = [7; LONGEST + 2];
    assert_eq!(rt; save(&sheet, &book, &mut longer), Ok(LONGEST));
    let mut exact = [7; LONGEST];
    assert_eq!(rt; save(&sheet, &book, &mut exact), Ok(LONGEST));
    assert!(rt; longer.starts_with(&exact) && longer.ends_with(&[LF, 7, 7]));
    let mut short = [7; LONGEST - 1];
    assert_eq!(rt; save(&sheet, &book, &mut short), Err(Refusal::Memory));
    assert!(rt; short == [7; LONGEST - 1]);
}

// The place of the kind of the line's frame among all kinds; 0 where the line is refused.
fn kind(line: &[u8]) -> usize {
    match read(line).map(|line| line.frame) {
        Ok(Frame::Task { .. }) => 1,
        Ok(Frame::Link { .. }) => 2,
        Ok(Frame::Hard { .. }) => 3,
        Ok(Frame::Ramp { .. }) => 4,
        Ok(Frame::Soft { .. }) => 5,
        Ok(Frame::Step { .. }) => 6,
        Ok(Frame::Weight { .. }) => 7,
        Err(_) => 0,
    }
}

fn count(text: &[u8], of: usize) -> usize {
    text.split_inclusive(|byte| *byte == LF)
        .filter(|line| kind(line) == of)
        .count()
}

#[test]
fn each_line_of_a_text_is_read_and_its_last_digit_counts(rt: HostRuntime) {
    let (sheet, book) = full();
    let mut text = [7; LONGEST];
    assert!(rt; save(&sheet, &book, &mut text).is_ok());
    let counts: [usize; 8] = array::from_fn(|of| count(&text, of));
    assert_eq!(rt; counts, [0, 16, 120, 16, 16, 0, 96, 16]);
    for line in text.split_inclusive_mut(|byte| *byte == LF) {
        if let [.., digit, LF] = line {
            *digit = if *digit == b'0' { b'1' } else { b'0' };
        }
        assert_eq!(rt; read(line), Err(Refusal::BadSum));
    }
}

#[test]
fn what_is_saved_is_loaded_again(rt: HostRuntime) {
    let (sheet, book) = full();
    assert!(rt; sheet.count() == 16 && reloaded(&sheet, &book) == Some((sheet, book)));
}

#[test]
fn a_frame_of_3000_bytes_is_of_no_kind(rt: HostRuntime) {
    let mut line = [b'0'; 6001];
    line[1] = b'5';
    line[5998] = b'F';
    line[5999] = b'B';
    line[6000] = LF;
    assert!(rt; read(&line).err() == Some(Refusal::BadFrame));
    line[5999] = b'C';
    assert!(rt; read(&line).err() == Some(Refusal::BadSum));
}

#[test]
fn a_hard_task_is_found_in_its_own_line_alone(rt: HostRuntime) {
    assert!(rt; hard_task(b"0303000258A0\n") == Some((3, 600)));
    assert!(rt; hard_task(b"0303000258A0 unblank output\n") == Some((3, 600)));
    for line in [b"0303000258A0".as_slice(), b"0303000258A1\n", b"0503F8\n"] {
        assert!(rt; hard_task(line) == None);
    }
}

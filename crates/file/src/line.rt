// The text of a line: pairs of digits, then perhaps a blank and a note, then 0A.
ghost use Rattle.std.specs.Prelude.{◌≡◌, ℕ, ◌+◌, ◌*◌, ◌%◌, ◌<◌, ◌≤◌, get_or, length, option_map, sum};
ghost use Rattle.file.specs.Frames.{decoded};
ghost use Rattle.std.specs.List.{list_all, prefix_len};
ghost use Rattle.file.specs.Lines.{bytes_of, is_digit, note_in, parts, prints, value};
ghost use Rattle.file.specs.Parts.{parts_now};
ghost use Rattle.file.specs.Readings.{note_now};

use crate::frame::Frame;
use std::array;

pub(crate) const LF: u8 = 0x0a;

pub(crate) const BLANK: u8 = b' ';

// The digits of a line, and its note.
#[derive(Clone, Copy)]
pub(crate) struct Parts<'a> {
    digits: &'a [u8],
    pub(crate) note: Option<&'a [u8]>,
}

fn is_digit(byte: u8) -> bool
    ensures { result ≡ is_digit byte }
{
    matches!(byte, b'0'..=b'9' | b'A'..=b'F')
}

// The number that a digit stands for; 0 for any other byte.
fn value(byte: u8) -> u8
    ensures value { result ≡ value byte }
    ensures small { result < 16 }
{
    match byte {
        b'0'..=b'9' => byte - b'0',
        b'A'..=b'F' => byte - b'A' + 10,
        _ => 0,
    }
}

// The byte that a pair of digits stands for.
fn of_pair(high: u8, low: u8) -> u8
    ensures { result ≡ 16 * value high + value low }
{
    16 * value(high) + value(low)
}

fn prints(byte: u8) -> bool
    ensures { result ≡ prints byte }
{
    matches!(byte, b' '..=b'~')
}

fn all_print(bytes: &[u8]) -> bool
    ensures { result ≡ list_all prints bytes.now }
{
    bytes.iter().all(|byte| prints(*byte))
}

// How many digits are at the front of the line.
fn digits_at_front(line: &[u8]) -> usize
    ensures value { result ≡ prefix_len is_digit line.now }
    ensures within { result ≤ length line.now }
{
    line.iter().take_while(|byte| is_digit(**byte)).count()
}

// The note in what is behind the digits, if that ends a line.
#[tactic(auto, using(crate::proofs::Notes::note_by_place))]
fn note_in(behind: &[u8]) -> Option<Option<&[u8]>>
    ensures { option_map note_now result ≡ note_in behind.now }
{
    match behind {
        [LF] => Some(None),
        [BLANK, note @ .., LF] if all_print(note) => Some(Some(note)),
        _ => None,
    }
}

impl<'a> Parts<'a> {
    // The parts of the line, if it is one.
    #[tactic(auto, unfolding(crate::specs::Lines::parts))]
    pub(crate) fn of(line: &'a [u8]) -> Option<Parts<'a>>
        ensures { option_map parts_now result ≡ parts line.now }
    {
        let count = digits_at_front(line);
        if count == 0 || count % 2 == 1 {
            return None;
        }
        let (digits, behind) = line.split_at(count);
        let note = note_in(behind)?;
        Some(Parts { digits, note })
    }

    // Byte i of the frame; 0 past its end.
    #[tactic(auto, using(crate::proofs::Bytes::paired))]
    pub(crate) fn byte(&self, i: u8) -> u8
        ensures { result ≡ get_or (bytes_of self.now.digits.now) i 0 }
    {
        let at = 2 * usize::from(i);
        let (Some(high), Some(low)) = (self.digits.get(at), self.digits.get(at + 1)) else {
            return 0;
        };
        of_pair(*high, *low)
    }

    // The sum of the frame's bytes, modulo 256.
    #[tactic(auto, using(crate::proofs::Bytes::paired))]
    pub(crate) fn sum(&self) -> u8
        ensures { result ≡ sum (bytes_of self.now.digits.now) % 256 }
    {
        let mut sum: u8 = 0;
        let mut digits = self.digits;
        while let [high, low, behind @ ..] = digits {
            sum = sum.wrapping_add(of_pair(*high, *low));
            digits = behind;
        }
        sum
    }

    // The first bytes of the frame, as many as the longest kind has; 0 past its end.
    fn first(&self) -> [u8; Frame::LONGEST]
        ensures { (k : ℕ) → k < 12 → get_or result k 0 ≡ get_or (bytes_of self.now.digits.now) k 0 }
    {
        // Below 12: the cast is proved to keep it.
        array::from_fn(|i| self.byte(i as u8))
    }

    // The frame, if its bytes are those of one.
    #[tactic(auto, using(crate::proofs::Bytes::framed))]
    pub(crate) fn frame(&self) -> Option<Frame>
        ensures { result ≡ decoded (bytes_of self.now.digits.now) }
    {
        let first = self.first();
        Frame::of(first.get(..self.digits.len() / 2)?)
    }
}

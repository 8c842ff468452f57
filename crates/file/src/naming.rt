// The names of tasks: notes of task lines, and the lines of a names file.
ghost use Rattle.std.specs.Prelude.{◌≡◌, ◌≤◌, ◌<◌, MatchResult, length, option_map, slice_get};
ghost use Rattle.common.specs.Refusals.{number};
ghost use Rattle.common.specs.declared.refusal.Refusal.TheVariants.{UnknownTask};
ghost use Rattle.file.specs.Lines.{parts};
ghost use Rattle.file.specs.Names.{name_of, names_line, task_note, task_notes, trimmed};

use crate::frame::kind;
use crate::line::{BLANK, LF, Parts};
use crate::pieces::first_piece;
use common::Refusal;

// The bytes without the blanks at their end.
#[tactic(auto, using(crate::proofs::Cutting::trimmed_front, crate::proofs::Cutting::trimmed_whole, std::proofs::lemmas::List::get_or_past))]
fn trimmed(bytes: &[u8]) -> &[u8]
    ensures { result.now ≡ trimmed bytes.now }
{
    let mut bytes = bytes;
    while let [front @ .., BLANK] = bytes {
        bytes = front;
    }
    bytes
}

// The note of a task line, empty where it has none.
fn task_note(piece: &[u8]) -> Option<&[u8]>
    ensures { option_map (λ note. note.now) result ≡ task_note (parts piece.now) }
{
    let parts = Parts::of(piece)?;
    (parts.byte(0) == kind::TASK).then_some(parts.note.unwrap_or(&[]))
}

// The note of task line t; none where there are not so many.
fn note_of_task(file: &[u8], t: u8) -> Option<&[u8]>
    ensures { option_map (λ note. note.now) result ≡ slice_get (task_notes file.now) t }
{
    let mut left = t;
    let mut file = file;
    while !file.is_empty() {
        let (piece, behind) = first_piece(file);
        file = behind;
        let Some(note) = task_note(piece) else {
            continue;
        };
        if left == 0 {
            return Some(note);
        }
        left -= 1;
    }
    None
}

// Line t of the names; empty past the last.
fn names_line(names: &[u8], t: u8) -> &[u8]
    ensures { result.now ≡ names_line names.now t }
{
    names
        .split(|byte| *byte == LF)
        .nth(usize::from(t))
        .unwrap_or(&names[names.len()..])
}

// The name of task t: the note of task line t of the file, or else line t of the names, without the blanks at its end.
pub fn name<'a>(file: &'a [u8], names: &'a [u8], t: u8) -> Result<&'a [u8], Refusal>
    ensures { let count = length (task_notes file.now) in MatchResult result
        (λ name. (t < count) × (name.now ≡ name_of file.now names.now t))
        (λ e. (count ≤ t) × (number e ≡ number UnknownTask)) }
{
    let own = trimmed(note_of_task(file, t).ok_or(Refusal::UnknownTask)?);
    if own.is_empty() {
        return Ok(trimmed(names_line(names, t)));
    }
    Ok(own)
}

// Reading a line.
ghost use Rattle.std.specs.Prelude.{◌≡◌};
ghost use Rattle.std.specs.Result.{result_map_both};
ghost use Rattle.file.specs.Readings.{Said, reading, reading_now};

use crate::frame::Frame;
use crate::line::Parts;
use common::Refusal;

// What a line says, and its note.
#[derive(Clone, Copy, Debug, PartialEq, Eq)]
pub struct Reading<'a> {
    pub frame: Frame,
    pub note: Option<&'a [u8]>,
}

// Reads a line with its 0A.
#[tactic(auto, using(crate::proofs::Sayings::said))]
pub fn read(line: &[u8]) -> Result<Reading<'_>, Refusal>
    ensures says { Said line.now (result_map_both reading_now (λ e. e) result) }
    ensures found { result_map_both reading_now (λ e. e) result ≡ reading line.now }
{
    let parts = Parts::of(line).ok_or(Refusal::NotALine)?;
    if parts.sum() != 0 {
        return Err(Refusal::BadSum);
    }
    let frame = parts.frame().ok_or(Refusal::BadFrame)?;
    Ok(Reading {
        frame,
        note: parts.note,
    })
}

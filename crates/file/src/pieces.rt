// A file, cut after each 0A.
ghost use Rattle.std.specs.Prelude.{◌≡◌, ◌≢◌, ◌∷◌, ◌<◌, length};
ghost use Rattle.file.specs.Lines.{pieces};

use crate::line::LF;

// The first piece of the file, which ends with its first 0A or with the file, and what is behind it.
pub(crate) fn first_piece(file: &[u8]) -> (&[u8], &[u8])
    ensures first { length file.now ≢ 0 → pieces file.now ≡ result.0.now ∷ pieces result.1.now }
    ensures shorter { length file.now ≢ 0 → length result.1.now < length file.now }
{
    let end = file
        .iter()
        .position(|byte| *byte == LF)
        .map_or(file.len(), |at| at + 1);
    file.split_at(end)
}

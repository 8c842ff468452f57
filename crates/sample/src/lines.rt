// What a caller learns from one line of a sheet file.
ghost use Rattle.std.specs.Prelude.{◌≡◌, ◌↔◌, ℕ, Some};
ghost use Rattle.sample.specs.Lines.{HardLine};

use file::{Frame, lines_stand, read};

// The hard task of a line and its deadline; nothing where it is no line of a hard task.
pub fn hard_task(line: &[u8]) -> Option<(u8, u32)>
    ensures { (k d : ℕ) → (result ≡ Some (k, d)) ↔ HardLine line.now k d }
{
    lines_stand();
    match read(line).ok()?.frame {
        Frame::Hard { t, deadline } => Some((t, deadline)),
        _ => None,
    }
}

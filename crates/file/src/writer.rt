// Text as it is written.
ghost use Rattle.std.specs.Prelude.{◌≡◌, ◌∷◌, [], ◌/◌, ◌%◌, ◌<◌};
ghost use Rattle.file.specs.Frames.{bytes_line, closing};
ghost use Rattle.file.specs.Lines.{digit};
ghost use Rattle.file.specs.Saved.{Written, text_of};
ghost use Rattle.file.specs.Writing.{Wrote, over};

use crate::frame::{Frame, kind, three};
use crate::line::LF;
use common::Refusal;

// What there is room for is laid down from the front of `out`, and all of it is counted.
#[derive(Drop)]
pub(crate) struct Writer<'a> {
    out: &'a mut [u8],
    pub(crate) len: usize,
}

// The digit of a number below 16.
fn digit(n: u8) -> u8
    requires { n < 16 }
    ensures { result ≡ digit n }
{
    if n < 10 { b'0' + n } else { b'A' + (n - 10) }
}

// The byte that makes the sum of these and itself 0 modulo 256.
fn closing(bytes: &[u8]) -> u8
    ensures { result ≡ closing bytes.now }
{
    bytes
        .iter()
        .fold(0_u8, |sum, byte| sum.wrapping_add(*byte))
        .wrapping_neg()
}

impl<'a> Writer<'a> {
    pub(crate) fn new(out: &'a mut [u8]) -> Writer<'a>
        ensures same { result.out.ghost_name ≡ out.entry.ghost_name }
        ensures laid { result.out.now ≡ out.old }
        ensures counted { result.len ≡ 0 }
    {
        Writer { out, len: 0 }
    }

    // Puts a byte behind what was written, where there is room. The count stops at the largest number, which no text of a sheet
    // comes near.
    #[tactic(auto, using(std::proofs::lemmas::List::set_past), unfolding(crate::specs::Writing::over))]
    fn put(&mut self, byte: u8)
        ensures { Wrote self.old (byte ∷ []) self.new }
    {
        if self.len < self.out.len() {
            self.out[self.len] = byte;
        }
        self.len = self.len.saturating_add(1);
    }

    fn pair(&mut self, byte: u8)
        ensures { Wrote self.old (digit (byte / 16) ∷ digit (byte % 16) ∷ []) self.new }
    {
        self.put(digit(byte / 16));
        self.put(digit(byte % 16));
    }

    // The line of the bytes and the closing one.
    fn line(&mut self, bytes: &[u8])
        ensures { Wrote self.old (bytes_line bytes.now) self.new }
    {
        for byte in bytes {
            self.pair(*byte);
        }
        self.pair(closing(bytes));
        self.put(LF);
    }

    // The line of the frame.
    #[tactic(auto, unfolding(crate::specs::Saved::text_of))]
    pub(crate) fn frame(&mut self, frame: Frame)
        ensures { Wrote self.old (text_of (frame ∷ [])) self.new }
    {
        match frame {
            Frame::Task { min, max } => {
                let ([a, b], [c, d]) = (min.to_be_bytes(), max.to_be_bytes());
                self.line(&[kind::TASK, a, b, c, d]);
            }
            Frame::Link { a, b } => self.line(&[kind::LINK, a, b]),
            Frame::Hard { t, deadline } => {
                let [a, b, c] = three(deadline);
                self.line(&[kind::HARD, t, a, b, c]);
            }
            Frame::Ramp {
                t,
                peak,
                knee,
                foot,
            } => {
                let [a, b, c] = three(peak);
                let [d, e, f] = three(knee);
                let [g, h, i] = three(foot);
                self.line(&[kind::RAMP, t, a, b, c, d, e, f, g, h, i]);
            }
            Frame::Soft { t } => self.line(&[kind::SOFT, t]),
            Frame::Step { t, until, worth } => {
                let [a, b, c] = three(until);
                let [d, e, f] = three(worth);
                self.line(&[kind::STEP, t, a, b, c, d, e, f]);
            }
            Frame::Weight { t, weight } => self.line(&[kind::WEIGHT, t, weight]),
        }
    }
}

// Lays the line down, as far as there is room for it.
fn lay_line(bytes: &[u8], out: &mut [u8])
    ensures { out.new ≡ over out.old 0 (bytes_line bytes.now) }
{
    let mut writer = Writer::new(out);
    writer.line(bytes);
}

// Writes the line of these bytes and the closing one, and answers its length; nothing behind it is written. Where there is no room
// for all of it, nothing is.
pub fn write_line(bytes: &[u8], out: &mut [u8]) -> Result<usize, Refusal>
    ensures { Written (bytes_line bytes.now) out.old out.new result }
{
    // Each byte and the closing one have two digits, and 0A ends the line.
    let len = bytes.len().saturating_mul(2).saturating_add(3);
    if out.len() < len {
        return Err(Refusal::Memory);
    }
    lay_line(bytes, out);
    Ok(len)
}

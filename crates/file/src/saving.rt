// Saving a sheet and a book.
#![tactic(auto, unfolding(crate::specs::Saved::each, crate::specs::Saved::text_of, crate::specs::Writing::over))]

ghost use Rattle.std.specs.Prelude.{◌≡◌, length};
ghost use Rattle.book.specs.Standard.{contents};
ghost use Rattle.file.specs.Saved.{each, hard_frame, links_from, ramp_frame, saved, soft_frame, step_frames, task_frame, text_of};
ghost use Rattle.file.specs.Saved.{Written, weight_frame};
ghost use Rattle.file.specs.Writing.{Wrote, over};
ghost use Rattle.sheet.specs.Sheets.{table};

use crate::frame::Frame;
use crate::writer::Writer;
use book::StandardBook;
use common::{MOST, Refusal};
use sheet::{Kind, Sheet};

// Memory of this length has room for the text of any sheet and any book.
pub const ROOM: usize = 5200;

// The weight of a task that was given none. It isn't saved.
const UNSET: u32 = 1;

// The frames of each kind, by number. Task numbers are below 16: their casts are proved to keep them.
impl Writer<'_> {
    fn frames(&mut self, sheet: &Sheet, book: &StandardBook)
        ensures { Wrote self.old (saved (table sheet.now) (contents book.now)) self.new }
    {
        self.tasks(sheet);
        self.links(sheet);
        self.hard(sheet);
        self.ramps(book);
        self.soft(sheet);
        self.steps(book);
        self.weights(book);
    }

    fn tasks(&mut self, sheet: &Sheet)
        ensures { let t = table sheet.now in Wrote self.old (text_of (each (length t) (task_frame t))) self.new }
    {
        for task in sheet.tasks() {
            self.frame(Frame::Task {
                min: task.min,
                max: task.max,
            });
        }
    }

    fn links(&mut self, sheet: &Sheet)
        ensures { let t = table sheet.now in Wrote self.old (text_of (each (length t) (links_from t))) self.new }
    {
        for a in 0..sheet.count() {
            self.links_from(sheet, a);
        }
    }

    fn links_from(&mut self, sheet: &Sheet, a: u8)
        ensures { Wrote self.old (text_of (links_from (table sheet.now) a)) self.new }
    {
        for (b, task) in sheet.tasks().iter().enumerate() {
            if task.before.contains(a) {
                self.frame(Frame::Link { a, b: b as u8 });
            }
        }
    }

    fn hard(&mut self, sheet: &Sheet)
        ensures { let t = table sheet.now in Wrote self.old (text_of (each (length t) (hard_frame t))) self.new }
    {
        for (t, task) in sheet.tasks().iter().enumerate() {
            if let Some(deadline) = task.kind.deadline() {
                self.frame(Frame::Hard {
                    t: t as u8,
                    deadline,
                });
            }
        }
    }

    fn ramps(&mut self, book: &StandardBook)
        ensures { Wrote self.old (text_of (each 16 (ramp_frame (contents book.now)))) self.new }
    {
        for t in 0..MOST {
            if let Some(ramp) = book.ramp_of(t) {
                self.frame(Frame::Ramp {
                    t,
                    peak: ramp.peak,
                    knee: ramp.knee,
                    foot: ramp.foot,
                });
            }
        }
    }

    fn soft(&mut self, sheet: &Sheet)
        ensures { let t = table sheet.now in Wrote self.old (text_of (each (length t) (soft_frame t))) self.new }
    {
        for (t, task) in sheet.tasks().iter().enumerate() {
            if task.kind == Kind::Soft {
                self.frame(Frame::Soft { t: t as u8 });
            }
        }
    }

    fn steps(&mut self, book: &StandardBook)
        ensures { Wrote self.old (text_of (each 16 (step_frames (contents book.now)))) self.new }
    {
        for t in 0..MOST {
            self.steps_of(book, t);
        }
    }

    fn steps_of(&mut self, book: &StandardBook, t: u8)
        ensures { Wrote self.old (text_of (step_frames (contents book.now) t)) self.new }
    {
        for step in book.steps_of(t) {
            self.frame(Frame::Step {
                t,
                until: step.until,
                worth: step.worth,
            });
        }
    }

    fn weights(&mut self, book: &StandardBook)
        ensures { Wrote self.old (text_of (each 16 (weight_frame (contents book.now)))) self.new }
    {
        for t in 0..MOST {
            let weight = book.weight_of(t);
            if weight > UNSET {
                // At most 16: the cast is proved to keep it.
                self.frame(Frame::Weight {
                    t,
                    weight: weight as u8,
                });
            }
        }
    }
}

// Writes the text as far as there is room for it, and answers how long it is.
fn write(sheet: &Sheet, book: &StandardBook, out: &mut [u8]) -> usize
    ensures laid { out.new ≡ over out.old 0 (saved (table sheet.now) (contents book.now)) }
    ensures counted { result ≡ length (saved (table sheet.now) (contents book.now)) }
{
    let mut writer = Writer::new(out);
    writer.frames(sheet, book);
    writer.len
}

// Writes the text of the sheet and the book, and answers its length; nothing behind it is written. Where there is no room for all
// of it, nothing is.
pub fn save(sheet: &Sheet, book: &StandardBook, out: &mut [u8]) -> Result<usize, Refusal>
    ensures { Written (saved (table sheet.now) (contents book.now)) out.old out.new result }
{
    let len = write(sheet, book, &mut []);
    if out.len() < len {
        return Err(Refusal::Memory);
    }
    Ok(write(sheet, book, out))
}

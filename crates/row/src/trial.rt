// Trying a task on a row's tally: the figures with it are there as long as the trial is.
ghost use Rattle.std.specs.Prelude.{◌≡◌};
ghost use Rattle.row.specs.Trials.{figures_of, left_by, reference_of, refusal_of, saved_of};

use crate::open::OpenRow;
use crate::tally::Tally;
use book::Book;

// While it lives the tally has the task, or is as it was where placing the task would be refused. Whichever way it ends, the
// tally is then as it was before.
#[must_use]
pub struct Trial<'a> {
    tally: &'a mut Tally,
    saved: Tally,
    refusal: u8,
}

impl Drop for Trial<'_> {
    fn drop(self)
        ensures { left_by self.exit ≡ saved_of self.entry }
    {
        let Trial {
            tally,
            saved,
            refusal: _,
        } = self;
        *tally = saved;
    }
}

impl Trial<'_> {
    // The number with which placing the task would be refused, or 0 where it was added.
    pub fn refusal(&self) -> u8
        ensures { result ≡ refusal_of self.now }
    {
        self.refusal
    }

    // The figures as they now are.
    pub fn tally(&self) -> Tally
        ensures { result ≡ figures_of self.now }
    {
        *self.tally
    }

    // Ends the trial here.
    pub fn end(self)
        ensures { left_by self.exit ≡ saved_of self.entry }
    {}
}

impl OpenRow {
    ghost use Rattle.std.specs.Prelude.{ℕ, ◌<◌, [], ◌∷◌, ◌++◌};
    ghost use Rattle.row.specs.Laid.{laid, open_sheet};
    ghost use Rattle.row.specs.Rows.{Judged};
    ghost use Rattle.row.specs.Tallies.{Adds, Tells};
    ghost use Rattle.sheet.specs.Sheets.{table};

    // Tries task t on a tally, as if it were placed behind the row.
    pub fn trial<'a, B: Book>(&self, book: &B, tally: &'a mut Tally, t: u8) -> Trial<'a>
        ensures same_reference { reference_of result ≡ tally.entry.ghost_name }
        ensures saved { saved_of result ≡ tally.old }
        ensures says { Judged (table (open_sheet self.now)) (laid self.now) t (refusal_of result) }
        ensures kept { 0 < refusal_of result → figures_of result ≡ tally.old }
        ensures adds { refusal_of result ≡ 0 → Adds (B.meaning book.now) (table (open_sheet self.now)) t tally.old (figures_of result) }
        ensures tells { refusal_of result ≡ 0 → Tells (B.meaning book.now) (table (open_sheet self.now)) (laid self.now) tally.old →
            Tells (B.meaning book.now) (table (open_sheet self.now)) (laid self.now ++ t ∷ []) (figures_of result) }
    {
        let saved = *tally;
        let refusal = match self.judge(t) {
            Ok(()) => {
                *tally = saved.with(&self.sheet, book, t);
                0
            }
            Err(refusal) => refusal.number(),
        };
        Trial {
            tally,
            saved,
            refusal,
        }
    }
}

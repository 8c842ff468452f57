// A row that takes more tasks.
ghost use Rattle.std.specs.Prelude.{◌≡◌, count_ones, length, take};
ghost use Rattle.row.specs.Rows.{Leads, set_of};
ghost use Rattle.sheet.specs.Sheets.{table};

use crate::full::FullRow;
use common::{Refusal, TaskSet};
use sheet::Sheet;

// The first places of `order` hold the tasks of the row, as many as the placed set has members. Some lawful order begins with
// them.
#[derive(Debug, Drop)]
pub struct OpenRow {
    pub(crate) sheet: Sheet,
    placed: TaskSet,
    order: [u8; 16],
    ghost whole: { length order ≡ 16 },
    ghost holds: { placed.0 ≡ set_of (take (count_ones placed.0) order) },
    ghost leads: { ∥ Leads (table sheet) (take (count_ones placed.0) order) ∥₁ },
}

impl OpenRow {
    ghost use Rattle.std.specs.Prelude.{ℕ, [], ◌∷◌, ◌++◌, ◌≤◌, IfErr, nat_lt};
    ghost use Rattle.common.specs.Refusals.{outcome, kept_unless};
    ghost use Rattle.common.specs.Sets.{has};
    ghost use Rattle.plan.specs.Orders.{times};
    ghost use Rattle.row.specs.Laid.{full_sheet, laid, open_sheet, order_of};
    ghost use Rattle.row.specs.Rows.{First, Judged, Lowest};

    pub(crate) fn on(sheet: Sheet) -> OpenRow
        requires { Leads (table sheet) [] }
        ensures sheet { open_sheet result ≡ sheet }
        ensures empty { laid result ≡ [] }
    {
        OpenRow {
            sheet,
            placed: TaskSet::EMPTY,
            order: [0; 16],
        }
    }

    // A copy of the row's sheet.
    pub fn sheet(&self) -> Sheet
        ensures { result ≡ open_sheet self.now }
    {
        self.sheet
    }

    // The tasks of the row, the first to run first.
    pub fn order(&self) -> &[u8]
        ensures tasks { result.now ≡ laid self.now }
        ensures leads { Leads (table (open_sheet self.now)) result.now }
    {
        &self.order[0..self.placed.len() as usize]
    }

    // Which tasks the row has.
    #[tactic(auto, using(crate::proofs::Laying::set_has))]
    pub fn placed(&self) -> TaskSet
        ensures set { result.0 ≡ set_of (laid self.now) }
        ensures members { (k : ℕ) → has result.0 k ≡ nat_lt 0 (times k (laid self.now)) }
    {
        self.placed
    }

    // How many tasks the row has.
    #[tactic(auto, using(crate::proofs::Held::counted))]
    pub fn count(&self) -> u8
        ensures ones { result ≡ count_ones (set_of (laid self.now)) }
        ensures counts { result ≡ length (laid self.now) }
        ensures few { result ≤ length (table (open_sheet self.now)) }
    {
        // At most 16: the cast is proved to keep it.
        self.placed.len() as u8
    }

    // Whether task t may be placed next. By the margins of what is left after it, and not by a search over orders.
    pub(crate) fn judge(&self, t: u8) -> Result<(), Refusal>
        ensures { Judged (table (open_sheet self.now)) (laid self.now) t (outcome result) }
    {
        let task = self.sheet.get(t)?;
        if self.placed.contains(t) {
            return Err(Refusal::Placed);
        }
        if !task.before.within(self.placed) {
            return Err(Refusal::NotReady);
        }
        if !self.sheet.fits_after(self.placed.with(t)) {
            return Err(Refusal::NoOrderSo);
        }
        Ok(())
    }

    // Puts task t at the end.
    fn put(&mut self, t: u8)
        requires { Leads (table (open_sheet self.old)) (laid self.old ++ t ∷ []) }
        ensures sheet { open_sheet self.new ≡ open_sheet self.old }
        ensures more { laid self.new ≡ laid self.old ++ t ∷ [] }
    {
        self.order[self.placed.len() as usize] = t;
        self.placed = self.placed.with(t);
    }

    // Puts task t at the end, where some lawful order begins so.
    pub fn place(&mut self, t: u8) -> Result<(), Refusal>
        ensures says { Judged (table (open_sheet self.old)) (laid self.old) t (outcome result) }
        ensures lays { laid self.new ≡ kept_unless (outcome result) (laid self.old ++ t ∷ []) (laid self.old) }
        ensures sheet { open_sheet self.new ≡ open_sheet self.old }
        ensures kept { IfErr result (λ _. self.new ≡ self.old) }
    {
        self.judge(t)?;
        self.put(t);
        Ok(())
    }

    // Lays what is missing, at each place the lowest task that may be placed there.
    pub fn finish(mut self) -> FullRow
        ensures sheet { full_sheet result ≡ open_sheet self }
        ensures first { First (table (open_sheet self)) (laid self) (order_of result) }
        ensures lowest { Lowest (table (open_sheet self)) (laid self) (order_of result) }
    {
        for _ in self.placed.len()..u32::from(self.sheet.count()) {
            let mut t = 0;
            let lowest = loop {
                if self.judge(t).is_ok() {
                    break t;
                }
                t += 1;
            };
            self.put(lowest);
        }
        let OpenRow {
            sheet,
            placed: _,
            order,
        } = self;
        FullRow::new(sheet, order)
    }
}

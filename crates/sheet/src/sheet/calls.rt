// The calls that change a sheet. Their arguments are plain numbers: types of their own could not hold what is refused.
ghost use Rattle.std.specs.Prelude.{◌≡◌, IfErr, IfOk, IsFalse, IsTrue, length};
ghost use Rattle.common.specs.Refusals.{outcome};
ghost use Rattle.sheet.specs.Calls.{Called, lasts};
ghost use Rattle.sheet.specs.Linking.{Linking, Cutting};
ghost use Rattle.sheet.specs.Sheets.{table};

use crate::call::Call;
use crate::sheet::Sheet;
use crate::table::{Kind, Task};
use common::{LATEST, MOST, Refusal};

const LONGEST: u32 = 65535;

// The durations of a task, where they keep their rule.
fn durations(min: u32, max: u32) -> Result<(u16, u16), Refusal>
    ensures gives { IfOk result (λ d. IsTrue (lasts min max) × (d.0 ≡ min) × (d.1 ≡ max)) }
    ensures refuses { IfErr result (λ e. IsFalse (lasts min max) × (e ≡ Refusal.Durations)) }
{
    if 1 <= min && min <= max && max <= LONGEST {
        // The casts are proved to keep both.
        return Ok((min as u16, max as u16));
    }
    Err(Refusal::Durations)
}

#[tactic(auto, using(crate::proofs::Linking::answering))]
impl Sheet {
    // Adds a plain task, and answers its number.
    pub fn task(&mut self, min: u32, max: u32) -> Result<u8, Refusal>
        ensures called { Called (table self.old) (table self.new) (Call.Task min max) (outcome result) }
        ensures gives { IfOk result (λ k. k ≡ length (table self.old)) }
        ensures kept { IfErr result (λ _. self.new ≡ self.old) }
    {
        let t = self.count();
        if t >= MOST {
            return Err(Refusal::SheetFull);
        }
        let (min, max) = durations(min, max)?;
        self.table.push(Task::plain(min, max));
        Ok(t)
    }

    // Sets new durations; kind, deadline and links stay.
    pub fn time(&mut self, t: u8, min: u32, max: u32) -> Result<(), Refusal>
        ensures called { Called (table self.old) (table self.new) (Call.Time t min max) (outcome result) }
        ensures kept { IfErr result (λ _. self.new ≡ self.old) }
    {
        let task = self.get(t)?;
        let (min, max) = durations(min, max)?;
        self.table.put(t, Task { min, max, ..task });
        Ok(())
    }

    // Puts a before b. A link that is there already is accepted.
    #[tactic(auto, using(crate::proofs::Linking::looking))]
    pub fn link(&mut self, a: u8, b: u8) -> Result<(), Refusal>
        ensures called { Called (table self.old) (table self.new) (Call.Link a b) (outcome result) }
        ensures means { Linking (table self.old) (table self.new) a b (outcome result) }
        ensures kept { IfErr result (λ _. self.new ≡ self.old) }
    {
        let task = self.get(b)?;
        if self.up_set(a)?.contains(b) {
            return Err(Refusal::Circle);
        }
        let before = task.before.with(a);
        self.table.put(b, Task { before, ..task });
        Ok(())
    }

    // Takes that direct link away; any other path from a to b stays.
    #[tactic(auto, using(crate::proofs::Linking::answering), unfolding(crate::specs::Links::linked))]
    pub fn cut(&mut self, a: u8, b: u8) -> Result<(), Refusal>
        ensures called { Called (table self.old) (table self.new) (Call.Cut a b) (outcome result) }
        ensures means { Cutting (table self.old) (table self.new) a b }
        ensures kept { IfErr result (λ _. self.new ≡ self.old) }
    {
        self.get(a)?;
        let task = self.get(b)?;
        if !task.before.contains(a) {
            return Err(Refusal::NoLink);
        }
        let before = task.before.without(a);
        self.table.put(b, Task { before, ..task });
        Ok(())
    }

    // Marks a plain or hard task as hard, to end by the deadline.
    pub fn hard(&mut self, t: u8, deadline: u32) -> Result<(), Refusal>
        ensures called { Called (table self.old) (table self.new) (Call.Hard t deadline) (outcome result) }
        ensures kept { IfErr result (λ _. self.new ≡ self.old) }
    {
        let task = self.get(t)?;
        if !(1..=LATEST).contains(&deadline) {
            return Err(Refusal::DeadlineRange);
        }
        if task.kind == Kind::Soft {
            return Err(Refusal::OtherKind);
        }
        let kind = Kind::Hard(deadline);
        self.table.put(t, Task { kind, ..task });
        Ok(())
    }

    // Marks a plain or soft task as soft.
    pub fn soft(&mut self, t: u8) -> Result<(), Refusal>
        ensures called { Called (table self.old) (table self.new) (Call.Soft t) (outcome result) }
        ensures kept { IfErr result (λ _. self.new ≡ self.old) }
    {
        let task = self.get(t)?;
        if matches!(task.kind, Kind::Hard(_)) {
            return Err(Refusal::OtherKind);
        }
        let kind = Kind::Soft;
        self.table.put(t, Task { kind, ..task });
        Ok(())
    }

    // Takes the mark off.
    pub fn plain(&mut self, t: u8) -> Result<(), Refusal>
        ensures called { Called (table self.old) (table self.new) (Call.Plain t) (outcome result) }
        ensures kept { IfErr result (λ _. self.new ≡ self.old) }
    {
        let task = self.get(t)?;
        let kind = Kind::Plain;
        self.table.put(t, Task { kind, ..task });
        Ok(())
    }
}

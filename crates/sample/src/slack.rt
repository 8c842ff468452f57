// A deadline that comes earlier, by no more than its margin.
ghost use Rattle.std.specs.Prelude.{◌≡◌, ◌↔◌, ◌⊎◌, ◌-◌, ◌≤◌, ℕ, pos, ◌≤ℤ◌, Some, IfErr, IfOk, IsFalse, IsTrue, length};
ghost use Rattle.common.specs.Refusals.{number};
ghost use Rattle.common.specs.declared.ticks.Margin.{Margin};
ghost use Rattle.sheet.specs.Calls.{after, verdict};
ghost use Rattle.sheet.specs.Margins.{Fits, margin_of};
ghost use Rattle.sheet.specs.Sheets.{table};
ghost use Rattle.sheet.specs.Tables.{task_of};

use common::Refusal;
use sheet::{Call, Kind, Sheet};

// Sets the deadline of a hard task earlier by so many ticks, and answers whether it did: only where at least so many are left of it.
// So a sheet that fits still does, though other margins may be less. Refused with 1 where there is no such task, and else as `hard`
// is.
pub fn sooner(sheet: &mut Sheet, t: u8, by: u32) -> Result<bool, Refusal>
    ensures fits { Fits (table sheet.old) → Fits (table sheet.new) }
    ensures when { IfOk result (λ moved. IsTrue moved ↔
        ((left : Margin) × (margin_of (table sheet.old) t ≡ Some left) × (pos by ≤ℤ left.0))) }
    ensures moves { IfOk result (λ moved. IsTrue moved → (d : ℕ) × ((task_of (table sheet.old) t).kind ≡ Kind.Hard d)
        × (table sheet.new ≡ after (table sheet.old) (Call.Hard t (d - by)))) }
    ensures stays { IfOk result (λ moved. IsFalse moved → sheet.new ≡ sheet.old) }
    ensures kept { IfErr result (λ _. sheet.new ≡ sheet.old) }
    ensures refused { IfErr result (λ e. ((length (table sheet.old) ≤ t) × (number e ≡ number Refusal.UnknownTask))
        ⊎ ((d : ℕ) × ((task_of (table sheet.old) t).kind ≡ Kind.Hard d)
        × (number e ≡ verdict (table sheet.old) (Call.Hard t (d - by))))) }
{
    let Kind::Hard(deadline) = sheet.get(t)?.kind else {
        return Ok(false);
    };
    let Some(left) = sheet.margin(t)? else {
        return Ok(false);
    };
    if left.0 < i64::from(by) {
        return Ok(false);
    }
    sheet.hard(t, deadline.saturating_sub(by))?;
    Ok(true)
}

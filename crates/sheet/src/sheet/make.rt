// Any call, given as a value.
ghost use Rattle.std.specs.Prelude.{◌≡◌, IfErr, IfOk};
ghost use Rattle.common.specs.Refusals.{outcome};
ghost use Rattle.sheet.specs.Calls.{Called, new_number};
ghost use Rattle.sheet.specs.Sheets.{table};

use crate::call::Call;
use crate::sheet::Sheet;
use common::Refusal;

impl Sheet {
    // Makes the call. A new task answers its number.
    pub fn make(&mut self, call: Call) -> Result<Option<u8>, Refusal>
        ensures called { Called (table self.old) (table self.new) call (outcome result) }
        ensures gives { IfOk result (λ number. number ≡ new_number (table self.old) call) }
        ensures kept { IfErr result (λ _. self.new ≡ self.old) }
    {
        // Calls are data, not closures: the definitions read them.
        match call {
            Call::Task(min, max) => return self.task(min, max).map(Some),
            Call::Time(t, min, max) => self.time(t, min, max)?,
            Call::Link(a, b) => self.link(a, b)?,
            Call::Cut(a, b) => self.cut(a, b)?,
            Call::Hard(t, deadline) => self.hard(t, deadline)?,
            Call::Soft(t) => self.soft(t)?,
            Call::Plain(t) => self.plain(t)?,
        }
        Ok(None)
    }
}

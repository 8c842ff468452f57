// Where a task stands in a list of sixteen. Ramps, steps and weights each have such an array: this guard comes before their
// rules and the write after them, so that a generic list with a guard of its own would test twice, and have no more than an
// array has.
ghost use Rattle.std.specs.Prelude.{◌≡◌, ◌≤◌, ◌<◌, MatchResult};
ghost use Rattle.common.specs.declared.refusal.Refusal.TheVariants.{UnknownTask};

use common::{MOST, Refusal};

// The number itself; refused above 15.
pub(crate) fn place(t: u8) -> Result<usize, Refusal>
    ensures { MatchResult result (λ k. (k ≡ t) × (t < 16)) (λ e. (e ≡ UnknownTask) × (16 ≤ t)) }
{
    if t >= MOST {
        return Err(Refusal::UnknownTask);
    }
    Ok(usize::from(t))
}

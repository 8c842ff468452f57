// How long tasks take together.
ghost use Rattle.std.specs.Prelude.{◌≡◌};
ghost use Rattle.common.specs.Sets.{has};
ghost use Rattle.sheet.specs.Sheets.{table};
ghost use Rattle.sheet.specs.Tables.{expected_of, load_of, maximum_of};

use crate::sheet::Sheet;
use common::{Expected, Maximum, TaskSet};

#[derive(Clone, Copy, Debug, PartialEq, Eq)]
pub struct Load {
    pub expected: Expected,
    pub maximum: Maximum,
}

impl Sheet {
    // How long the tasks of the set take together at most.
    pub fn load(&self, set: TaskSet) -> Maximum
        ensures { result.0 ≡ load_of maximum_of (table self.now) (has set.0) }
    {
        self.loads(set).maximum
    }

    // How long the tasks of the set take together, as expected and at most.
    pub fn loads(&self, set: TaskSet) -> Load
        ensures expected { result.expected.0 ≡ load_of expected_of (table self.now) (has set.0) }
        ensures maximum { result.maximum.0 ≡ load_of maximum_of (table self.now) (has set.0) }
    {
        let mut expected = Expected::from(0);
        let mut maximum = Maximum::from(0);
        let mut left = set;
        // From member to member: a test of each task would be a branch that a processor mispredicts half of the time.
        while let Some(t) = left.lowest() {
            // A number at or above the count is no task, and neither are those after it.
            let Some(task) = self.table.tasks().get(usize::from(t)) else {
                break;
            };
            expected = expected.plus(task.expected());
            maximum = maximum.plus(task.maximum());
            left = left.without(t);
        }
        Load { expected, maximum }
    }
}

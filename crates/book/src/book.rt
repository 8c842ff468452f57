// What a worth book is.
ghost use Rattle.std.specs.Prelude.{◌≡◌};
ghost use Rattle.book.specs.Worths.{Meaning, Sound};

use common::Expected;

// No worth is above it.
pub const TOP: u32 = 1000000;

// A worth for each task number and each time. A kind of book states what it means and shows that this is sound; then it serves
// wherever a book is asked.
pub trait Book {
    ghost meaning: { Self → Meaning };

    // What the task is worth if it ends at this time.
    fn worth(&self, task: u8, at: Expected) -> u32
        ensures { result ≡ meaning self.now task at.0 };

    ghost sound: { (x : Self) → Sound (meaning x) };
}

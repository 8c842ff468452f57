// Types of which equal values are the same value.
ghost use Rattle.std.specs.Prelude.{◌≡◌, ◌↔◌, IsTrue};

// `==` holds just of a value and itself.
pub trait Exact: PartialEq {
    ghost exact: { (x y : Self) → IsTrue (Self.PartialEq.eq x y) ↔ (x ≡ y) };
}

// Whether both are the same value. A derived `==` has no clause of its own, so this says what it finds.
pub fn same<T: Exact>(a: &T, b: &T) -> bool
    ensures { IsTrue result ↔ (a.now ≡ b.now) }
{
    a == b
}

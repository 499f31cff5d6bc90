//! What a search looks for.
ghost use Rattle.std.specs.Prelude.{◌≡◌};
ghost use Rattle.std.specs.declared.cmp.Ordering.{Ordering};

use std::cmp::Ordering;

/// What a search looks for among values in order: it says whether a value stands before it, is it, or stands behind it.
pub trait Target<T> {
    ghost order_of: { Self → T → Ordering };

    /// How a value stands to what is looked for: `Less` where it stands before, `Equal` where it is that, `Greater` where it stands behind.
    fn order(&self, value: &T) -> Ordering
        ensures { result ≡ order_of self.now value.now };
}

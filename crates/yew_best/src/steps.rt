//! The rule that the shared word keeps, and what each step on it tells and adds to the seat's view.
ghost use Rattle.std.specs.Prelude.{ℕ};

use crate::view::View;
use atomic_table::{Join, Play, Split, TableRule};
use std::marker::{Brand, PhantomData};

/// Between any two steps the word is at least all that was read and offered, and was itself offered or is 0. What a
/// seat read before it had offered it is 0 or was offered by another seat.
pub struct Rises;

impl TableRule<(), View, u32> for Rises {
    ghost use Rattle.yew_best.specs.Rule.{Keeps};
    ghost use Rattle.yew_best.specs.Views.{view_of};
    ghost use Rattle.std.specs.Prelude.{[]};

    ghost holds = { λ seats s. Keeps seats s.words s.views };

    ghost first = { λ seats. view_of seats seats [] [] [] };
}

/// A load, which is read.
pub struct Reads;

impl Play<(), View> for Reads {
    ghost use Rattle.yew_best.specs.Views.{has_read};
    ghost use Rattle.yew_best.specs.Rule.{Tells};
    ghost use Rattle.std.specs.Prelude.{◌≡◌};

    ghost then = { λ _ me n after. (after ≡ (has_read me.0 n, me.1)) × Tells me.0 n };
}

/// A key to offer. Each call picks its own.
pub trait Key {
    ghost key: { ℕ };
}

impl Key for Brand {
    ghost key = { 0 };
}

/// A load on behalf of a key, which is offered where the word is at least the key already.
pub struct Compares<K> {
    key: PhantomData<K>,
}

impl<K: Key> Play<(), View> for Compares<K> {
    ghost use Rattle.yew_best.specs.Views.{has_offered};
    ghost use Rattle.yew_best.specs.Rule.{Tells};
    ghost use Rattle.std.specs.Prelude.{◌≡◌, ◌<◌, ◌≤◌};

    ghost then = { λ _ me n after. (K.key ≤ n → after ≡ (has_offered me.0 K.key, me.1)) × (n < K.key → after ≡ me) × Tells me.0 n };
}

/// A greatest-value exchange, whose key is offered.
pub struct Raises;

impl Play<(), View> for Raises {
    ghost use Rattle.yew_best.specs.Views.{has_offered};
    ghost use Rattle.yew_best.specs.Rule.{Tells};
    ghost use Rattle.std.specs.Prelude.{◌≡◌};

    ghost then = { λ step me n after. (after ≡ (has_offered me.0 step.first, me.1)) × Tells me.0 n };
}

/// A new seat with a share of 1 is split off.
pub struct OneOff;

impl Split<View> for OneOff {
    ghost use Rattle.yew_best.specs.Views.{left_of, right_of};

    ghost left = { left_of };

    ghost right = { right_of };
}

/// A seat takes in another.
pub struct Together;

impl Join<View> for Together {
    ghost use Rattle.yew_best.specs.Views.{view_of, both_of};
    ghost use Rattle.std.specs.Prelude.{[]};

    ghost both = { both_of };

    ghost spent = { view_of 0 0 [] [] [] };
}

//! The rule that the counter of claims keeps, and what each step on it tells and adds to a seat's view.
use crate::claim_view::ClaimView;
use atomic_table::{Join, Play, Split, TableRule};

/// Between any two steps the numbers that all seats have claimed are all numbers below the counter, each once.
pub struct CountsClaims;

impl TableRule<(), ClaimView, u32> for CountsClaims {
    ghost use Rattle.yew_ranked.specs.ClaimRule.{Keeps};
    ghost use Rattle.yew_ranked.specs.ClaimViews.{view_of};
    ghost use Rattle.std.specs.Prelude.{[]};

    ghost holds = { λ seats s. Keeps seats s.words s.views };

    ghost first = { λ seats. view_of seats seats [] };
}

/// An addition: the number found is claimed.
pub struct Takes;

impl Play<(), ClaimView> for Takes {
    ghost use Rattle.yew_ranked.specs.ClaimViews.{has_claimed};
    ghost use Rattle.yew_ranked.specs.ClaimRule.{Tells};
    ghost use Rattle.std.specs.Prelude.{◌≡◌};

    ghost then = { λ _ me n after. (after ≡ (has_claimed me.0 n, me.1)) × Tells me.0 n };
}

/// A new seat with a share of 1 is split off.
pub struct OneOff;

impl Split<ClaimView> for OneOff {
    ghost use Rattle.yew_ranked.specs.ClaimViews.{left_of, right_of};

    ghost left = { left_of };

    ghost right = { right_of };
}

/// A seat takes in another.
pub struct Together;

impl Join<ClaimView> for Together {
    ghost use Rattle.yew_ranked.specs.ClaimViews.{view_of, both_of};
    ghost use Rattle.std.specs.Prelude.{[]};

    ghost both = { both_of };

    ghost spent = { view_of 0 0 [] };
}

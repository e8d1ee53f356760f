//! What all workers have found together.
ghost use Rattle.std.specs.Prelude.{◌≡◌, ◌<◌, ◌≤◌, ◌⊎◌, true, false, length};
ghost use Rattle.std.specs.List.{AllByRecursion};
ghost use Rattle.yew_crew.specs.Gathering.{IsGathered};

use yew_kinds::Tally;
use yew_walk::Hand;

/// Joins the hands of all workers, of which there is at least one. The sum is that of all hands. It holds exactly where
/// one of the hands holds. Key and path are then those of the first hand of greatest key among those that hold, and
/// otherwise those of the first hand. No memory is taken.
pub fn gather<N, T: Tally<N>>(tally: &T, mut hands: Vec<Hand<T::Sum>>) -> Hand<T::Sum>
    requires some { 0 < length hands.items }
    requires fits { AllByRecursion (λ hand. T.fits tally.now hand.sum) hands.items }
    ensures gathered { IsGathered (T.join tally.now) (T.none tally.now) hands.items result }
    ensures fits { T.fits tally.now result.sum }
{
    let Some(mut all) = hands.pop() else {
        unreachable!()
    };
    while let Some(hand) = hands.pop() {
        all = put_before(tally, hand, all);
    }
    all
}

// Puts a hand before others that were gathered: the later ones replace it only where their key is greater.
fn put_before<N, T: Tally<N>>(tally: &T, first: Hand<T::Sum>, others: Hand<T::Sum>) -> Hand<T::Sum>
    requires fits { T.fits tally.now first.sum × T.fits tally.now others.sum }
    ensures sum { result.sum ≡ T.join tally.now first.sum others.sum }
    ensures others { others.holds ≡ true → (first.holds ≡ false) ⊎ (first.key < others.key) → result ≡ record others { sum = result.sum } }
    ensures first { first.holds ≡ true → others.key ≤ first.key → result ≡ record first { sum = result.sum } }
    ensures empty { others.holds ≡ false → result ≡ record first { sum = result.sum } }
{
    let Hand {
        mut sum,
        key,
        path,
        holds,
    } = first;
    let Hand {
        sum: more,
        key: other_key,
        path: other_path,
        holds: other_holds,
    } = others;
    tally.join(&mut sum, more);
    if other_holds && (!holds || key < other_key) {
        return Hand {
            sum,
            key: other_key,
            path: other_path,
            holds: other_holds,
        };
    }
    Hand {
        sum,
        key,
        path,
        holds,
    }
}

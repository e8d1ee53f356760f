//! How a worth is offered to the incumbent word.

ghost use Rattle.std.specs.Prelude.{◌≡◌, ◌<◌, ◌≤◌, ◌^◌, min, IsTrue, ◌↔◌};
ghost use Rattle.yew_walk.specs.Keys.{IsKeying, key_of, held_of, limit_of};

/// The greatest number of an item, and so many keys have the same worth but one: 2^20 - 1.
const LAST_ITEM: u32 = 1_048_575;

/// How many keys have the same worth: 2^20.
const ITEMS: u64 = 1_048_576;

/// What the incumbent word holds. A search uses one kind of keying with its word.
#[derive(Clone, Copy, Debug, PartialEq, Eq)]
pub enum Keying {
    /// The worth of a node.
    Plain,
    /// The worth of a node, and among nodes of equal worth the one of the item with the smaller number first: the worth
    /// times 2^20, and 2^20 - 1 less the number of the item, which is below 2^20.
    Ranked(u32),
    /// The worth of a node, where a node is also cut off whose bound is greater than the held worth by no more than this
    /// gap, which is at most 2^40 - 2. Where nothing is held, no gap is permitted.
    Gap(u64),
}

impl Keying {
    /// The key of a worth, or of a bound, which is below 2^40.
    #[inline]
    pub fn key(self, worth: u64) -> u64
        requires keying { IsKeying self }
        requires worth { worth < 2 ^ 40 }
        ensures { result ≡ key_of self worth }
    {
        match self {
            Keying::Plain | Keying::Gap(_) => worth,
            Keying::Ranked(rank) => worth * ITEMS + (LAST_ITEM - rank) as u64,
        }
    }

    /// The worth that a word holds: of a key the worth that it was made of.
    #[inline]
    pub fn held(self, word: u64) -> u64
        ensures { result ≡ held_of self word }
    {
        match self {
            Keying::Plain | Keying::Gap(_) => word,
            Keying::Ranked(_) => word / ITEMS,
        }
    }

    /// The greatest key of a bound that is cut off where this word is read, and 2^64 - 1 where that is greater.
    #[inline]
    pub fn limit(self, word: u64) -> u64
        ensures { result ≡ min (limit_of self word) 18446744073709551615 }
    {
        match self {
            Keying::Plain | Keying::Ranked(_) => word,
            Keying::Gap(_) if word == 0 => 0,
            Keying::Gap(gap) => word.saturating_add(gap),
        }
    }
}

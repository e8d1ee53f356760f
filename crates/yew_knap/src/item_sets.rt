//! Sets of copies of items, one bit a copy.

ghost use Rattle.std.specs.Prelude.{◌≡◌, ◌<◌, ℕ, bit_or, if◌then◌else◌};

/// A set of copies. A copy is named by its place in the searched order, counted from 0 and below 256.
#[derive(Clone, Copy, Debug, PartialEq, Eq)]
pub struct ItemSet {
    words: [u64; 4],
}

impl ItemSet {
    ghost use Rattle.yew_knap.specs.ItemSets.{no_items, has_item, with_item};

    /// The empty set.
    #[inline(always)]
    pub fn empty() -> ItemSet
        ensures { result ≡ no_items }
    {
        ItemSet { words: [0; 4] }
    }

    /// Whether a copy is in the set.
    #[inline(always)]
    pub fn has(&self, item: u32) -> bool
        requires { item < 256 }
        ensures { result ≡ has_item self.now item }
    {
        self.words[(item / 64) as usize] >> (item % 64) & 1 == 1
    }

    /// The set with one more copy.
    ///
    /// Each word is written as a value of its own: a store to one word of an array would be waited for where the whole array
    /// is read next, as it is for each child.
    #[inline(always)]
    pub fn with(&self, item: u32) -> ItemSet
        requires { item < 256 }
        ensures { result ≡ with_item self.now item }
    {
        let bit = 1 << (item % 64);
        let place = item / 64;
        ItemSet {
            words: [
                word_with(self.words[0], place == 0, bit),
                word_with(self.words[1], place == 1, bit),
                word_with(self.words[2], place == 2, bit),
                word_with(self.words[3], place == 3, bit),
            ],
        }
    }
}

/// A word, with the bits of another one where they belong to it.
#[inline(always)]
fn word_with(word: u64, here: bool, bits: u64) -> u64
    ensures { result ≡ (if here then bit_or word bits else word) }
{
    if here { word | bits } else { word }
}

//! A numerical semigroup as words, and its generators above the Frobenius number.

ghost use Rattle.std.specs.Prelude.{◌≡◌, ◌+◌, ◌<◌, true, List, ℕ, [], ◌∷◌, map, length, MatchOption};
ghost use Rattle.std.specs.List.{AllByRecursion};
ghost use Rattle.yew_laws.specs.Sets.{contains};
ghost use Rattle.yew_semi.specs.SemigroupTree.{generators_above, is_generator, without, IsSemigroup};
ghost use Rattle.yew_semi.specs.Words.{bits_of, AreWords, AreInherited, AreGreater, IsLeastMember};

use std::marker::Model;

/// A semigroup of at most 40 gaps, with F its Frobenius number, or 0 where it has no gap. With k gaps F is at most 2k - 1,
/// the multiplicity m at most k + 1, and each minimal generator above F at most F + m. So what stands near F fits into 64
/// bits, by the distance from F. The fields leave 4 bytes of 48 unused; with the window kept elsewhere it would be 12,
/// which the compiler copies through memory at each node.
#[derive(Clone, Copy)]
struct Words {
    /// Bit x is set where x is a gap.
    gaps: u128,
    /// Bit i is set where F - i is a member from 1 up.
    mirror: u64,
    /// Bit i is set where F + i is one of some minimal generators: those that a node inherits, or that its children have
    /// left to take out.
    window: u64,
    /// F, the greatest gap, or 0 where there is none.
    frobenius: u32,
    /// The least member from 1 up.
    multiplicity: u32,
    /// How many gaps there are.
    genus: u32,
}

/// A numerical semigroup, with what is known of its minimal generators above the Frobenius number F from its parent: a
/// generator of the parent that is greater than the one taken out, F, stays one, and of the other numbers only F plus
/// the multiplicity can become one.
#[derive(Drop)]
pub struct Semigroup {
    /// The window has the minimal generators above F, but perhaps for F plus the multiplicity.
    words: Words,
}

impl Model for Semigroup {
    ghost use Rattle.std.specs.Prelude.{List, ℕ};
    ghost use Rattle.yew_semi.specs.Words.{bits_of, AreWords, AreInherited};

    ghost Value = { List ℕ };

    ghost view = { λ s. bits_of s.words.gaps };

    ghost invariant = { λ s. AreWords s.words.gaps s.words.mirror s.words.frobenius s.words.multiplicity s.words.genus × AreInherited (bits_of s.words.gaps) s.words.frobenius s.words.multiplicity s.words.window };
}

/// The children of a semigroup that were not given yet: the generators that are still to be taken out.
#[derive(Drop)]
pub struct Generators {
    /// The window has the generators that are still to be taken out.
    words: Words,
}

impl Model for Generators {
    ghost use Rattle.std.specs.Prelude.{List, ℕ, map};
    ghost use Rattle.yew_semi.specs.SemigroupTree.{without};
    ghost use Rattle.yew_semi.specs.Words.{bits_of, window_of, AreWords, AreLeft};

    ghost Value = { List (List ℕ) };

    ghost view = { λ s. map (without (bits_of s.words.gaps)) (window_of s.words.frobenius s.words.window) };

    ghost invariant = { λ s. AreWords s.words.gaps s.words.mirror s.words.frobenius s.words.multiplicity s.words.genus × AreLeft (bits_of s.words.gaps) s.words.frobenius s.words.window };
}

impl Semigroup {
    /// All whole numbers, of which 1 is the minimal generator.
    #[inline(always)]
    pub(crate) fn all() -> Semigroup
        ensures { result ≡ [] }
    {
        Semigroup {
            words: Words {
                gaps: 0,
                mirror: 0,
                window: 0,
                frobenius: 0,
                multiplicity: 1,
                genus: 0,
            },
        }
    }

    /// How many gaps there are.
    #[inline(always)]
    pub fn genus(&self) -> u32
        ensures { result ≡ length self.now }
    {
        self.words.genus
    }

    /// Whether a number is a gap.
    pub fn is_gap(&self, number: u32) -> bool
        ensures { result ≡ contains self.now number }
    {
        number < 128 && (self.words.gaps >> number) & 1 == 1
    }

    /// The semigroups without one of the minimal generators above the Frobenius number, by rising generator.
    #[inline(always)]
    pub(crate) fn generators(self) -> Generators
        requires { IsSemigroup 40 self }
        ensures { result ≡ map (without self) (generators_above self) }
    {
        // F + m is a sum of two members from 1 up where m + i and F - i are members for some i. It is at most 120, so that
        // the lesser of the two is at most 60: it is enough to look at each m + i below 64.
        let words = self.words;
        let members = !((words.gaps & 0xffff_ffff_ffff_ffff) as u64);
        let sums = (members >> words.multiplicity) & words.mirror;
        if sums == 0 {
            Generators {
                words: Words {
                    window: words.window | (1 << words.multiplicity),
                    ..words
                },
            }
        } else {
            Generators { words }
        }
    }

    /// No children.
    #[inline(always)]
    pub(crate) fn last(self) -> Generators
        ensures { result ≡ [] }
    {
        Generators {
            words: Words {
                window: 0,
                ..self.words
            },
        }
    }
}

impl Generators {
    /// The next child, by rising generator.
    #[inline(always)]
    pub(crate) fn take(&mut self) -> Option<Semigroup>
        requires { AllByRecursion (IsSemigroup 40) self.old }
        ensures { MatchOption result ((self.old ≡ []) × (self.new ≡ [])) (λ node. self.old ≡ node ∷ self.new) }
    {
        let window = self.words.window;
        if window == 0 {
            return None;
        }
        let ahead = window.trailing_zeros();
        let left = window & !(1 << ahead);
        let generator = self.words.frobenius + ahead;
        let child = self.words.without(generator, left >> ahead);
        self.words.window = left;
        Some(child)
    }
}

impl Words {
    /// The semigroup without a minimal generator that is greater than the Frobenius number. Bit i of `greater` is set
    /// where the generator plus i is one too, for i from 1 up.
    #[inline(always)]
    fn without(self, generator: u32, greater: u64) -> Semigroup
        requires words { AreWords self.gaps self.mirror self.frobenius self.multiplicity self.genus }
        requires generator { (generator < self.frobenius + 64) × (is_generator (bits_of self.gaps) generator ≡ true) }
        requires greater { AreGreater (bits_of self.gaps) generator greater }
        requires small { IsSemigroup 40 (without (bits_of self.gaps) generator) }
        ensures { result ≡ without (bits_of self.gaps) generator }
    {
        if generator == self.multiplicity {
            self.child(generator, generator + 1, greater | (1 << generator))
        } else {
            self.child(generator, self.multiplicity, greater)
        }
    }

    /// The semigroup without a generator, with its least member from 1 on and the generators that it inherits.
    #[inline(always)]
    fn child(self, generator: u32, multiplicity: u32, inherited: u64) -> Semigroup
        requires words { AreWords self.gaps self.mirror self.frobenius self.multiplicity self.genus }
        requires generator { (generator < self.frobenius + 64) × (is_generator (bits_of self.gaps) generator ≡ true) }
        requires small { IsSemigroup 40 (without (bits_of self.gaps) generator) }
        requires multiplicity { IsLeastMember (without (bits_of self.gaps) generator) multiplicity }
        requires inherited { AreInherited (without (bits_of self.gaps) generator) generator multiplicity inherited }
        ensures { result ≡ without (bits_of self.gaps) generator }
    {
        let ahead = generator - self.frobenius;
        Semigroup {
            words: Words {
                gaps: self.gaps | (1 << generator),
                // The numbers between the two are members.
                mirror: (self.mirror << ahead) | ((1 << ahead) - 2),
                window: inherited,
                frobenius: generator,
                multiplicity,
                genus: self.genus + 1,
            },
        }
    }
}

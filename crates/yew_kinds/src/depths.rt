//! How many nodes a tree has at each depth.

ghost use Rattle.std.specs.Prelude.{◌≡◌, ◌+◌, ◌<◌, ◌≤◌, List, ℕ, length, replicate, slice_set, slice_index, IfOk};
ghost use Rattle.yew_kinds.specs.DepthCounts.{HasCounts, joined_counts, one_at, zeros, saturated};
ghost use Rattle.yew_kinds.specs.DepthLaws.{counts-tally, one_at-fits};

use crate::tally::Tally;
use std::alloc::Global;
use std::marker::Model;
use yew_laws::Memory;

/// One count for each depth from 0. A count stays at 2^64 - 1 once it has reached it.
#[derive(Drop)]
pub struct Depths {
    counts: Vec<u64>,
}

impl Model for Depths {
    ghost use Rattle.std.specs.Prelude.{List, ℕ};

    ghost Value = { List ℕ };

    ghost view = { λ d. d.counts.items };
}

impl Depths {
    /// The counts, that of depth 0 first.
    pub fn counts(&self) -> &[u64]
        ensures { result.now ≡ self.now }
    {
        self.counts.as_slice()
    }

    /// No nodes at each depth from 0 to `depths`.
    fn zeros(alloc: Global, depths: u32) -> Result<Depths, Memory>
        requires { depths ≤ 65535 }
        ensures { IfOk result (λ sum. sum ≡ zeros depths) }
    {
        let counts = vec![in alloc; 0; depths as usize + 1]?;
        Ok(Depths { counts })
    }

    /// One node more at a depth.
    fn note(&mut self, depth: usize)
        ensures { self.new ≡ slice_set self.old depth (saturated (slice_index self.old depth + 1)) }
    {
        if depth < self.counts.len() {
            self.counts[depth] = self.counts[depth].saturating_add(1);
        }
    }

    /// The nodes of both.
    fn join(&mut self, other: &Depths)
        requires { length self.old ≡ length other.now }
        ensures { self.new ≡ joined_counts self.old other.now }
    {
        for (k, more) in other.counts.iter().enumerate() {
            self.counts[k] = self.counts[k].saturating_add(*more);
        }
    }
}

/// The tally that counts the nodes of each depth from 0 to `depths`, at most 65,535. A deeper node is not counted.
#[derive(Clone, Copy, Debug)]
pub struct ByDepth {
    /// The greatest depth that is counted.
    pub depths: u32,
    ghost few: { depths ≤ 65535 },
}

impl<N> Tally<N> for ByDepth {
    type Sum = Depths;

    ghost none = { λ tally. zeros tally.depths };

    ghost of = { λ tally _ depth. one_at tally.depths depth };

    ghost join = { λ _ a b. joined_counts a b };

    ghost fits = { λ tally sum. HasCounts tally.depths sum };

    ghost monoid = { λ tally. counts-tally tally.depths };

    ghost of_fits = { λ tally _ depth. one_at-fits tally.depths depth };

    fn none(&self, alloc: Global) -> Result<Depths, Memory> {
        Depths::zeros(alloc, self.depths)
    }

    fn note(&self, sum: &mut Depths, _node: &N, depth: u32) {
        sum.note(depth as usize);
    }

    fn join(&self, sum: &mut Depths, other: Depths) {
        sum.join(&other);
    }
}

#[cfg(test)]
mod tests {
    use super::*;
    use std::test::Fail;

    #[test]
    fn saturates(rt: HostRuntime) -> Result<(), Fail> {
        let alloc = rt.alloc();
        let mut sum = Depths {
            counts: vec![in alloc; u64::MAX, 5]?,
        };
        sum.note(0);
        sum.note(1);
        sum.note(2);
        assert_eq!(rt; sum.counts(), [u64::MAX, 6].as_slice());
        let other = Depths {
            counts: vec![in alloc; 1, u64::MAX - 6]?,
        };
        assert_eq!(rt; sum.counts().len(), other.counts().len());
        sum.join(&other);
        assert_eq!(rt; sum.counts(), [u64::MAX, u64::MAX].as_slice());
        Ok(())
    }
}

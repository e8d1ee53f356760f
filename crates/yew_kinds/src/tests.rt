ghost use Rattle.std.specs.Prelude.{◌≡◌, ◌+◌, ◌<◌, ◌≤◌, ◌^◌, ℕ, length, Bool, true, false, List, [], ◌∷◌, if◌then◌else◌};
ghost use Rattle.std.specs.List.{AllByRecursion};
ghost use Rattle.std.proofs.Common.{arith};

use crate::{ByDepth, Clipped, Counted, Depths, NoTally, Tally};
use std::alloc::Global;
use std::test::Fail;
use yew_laws::{Memory, Path, Problem, rebuild};

/// A root of worth 1, `true`, with one child of worth 3, `false`.
struct Twig;

impl Problem for Twig {
    type Node = bool;

    type Kids = bool;

    ghost root = { λ _. true };

    ghost children = { λ _ node. if node then false ∷ [] else [] };

    ghost rank = { λ _ node. if node then 1 else 0 };

    ghost sound = { λ _ _. Unit {0} };

    ghost remaining = { λ _ kids. if kids then false ∷ [] else [] };

    ghost worth = { λ _ node. if node then 1 else 3 };

    ghost bound = { λ _ _. 3 };

    ghost ranked = { λ _. record {
      stays_sound = λ n s. elim n as (λ b. AllByRecursion (λ (_ : Bool). Unit {0}) (if b then false ∷ [] else [])) [ true ↦ (tt, tt) | false ↦ tt ];
      rank_falls = λ n s. elim n as (λ b. AllByRecursion (λ (c : Bool). (if c then 1 else 0) < (if b then 1 else 0)) (if b then false ∷ [] else [])) [ true ↦ (Prim.omega arith, tt) | false ↦ tt ];
    } };

    ghost root_rank = { λ _ _. Prim.omega arith };

    ghost bounded = { λ _. record {
      bounds = λ n m path s e. elim m as (λ (b : Bool). (if b then 1 else 3) ≤ 3) [ true ↦ Prim.omega arith | false ↦ Prim.omega arith ];
      fits = λ n s. Prim.omega arith;
    } };

    ghost countable = { λ _ node s. elim node as (λ (b : Bool). length (if b then false ∷ [] else []) + 1 < 2 ^ 32) [ true ↦ Prim.omega arith | false ↦ Prim.omega arith ] };

    fn root(&self, _alloc: Global) -> Result<bool, Memory> {
        Ok(true)
    }

    fn open(&self, _alloc: Global, node: bool) -> Result<bool, Memory> {
        Ok(node)
    }

    fn next(&self, _alloc: Global, kids: &mut bool) -> Result<Option<bool>, Memory> {
        if *kids {
            *kids = false;
            Ok(Some(false))
        } else {
            Ok(None)
        }
    }

    fn worth(&self, node: &bool) -> u64 {
        if *node { 1 } else { 3 }
    }

    fn bound(&self, _node: &bool) -> u64 {
        3
    }
}

/// The sum of these depths, noted one after another.
fn noted(alloc: Global, tally: &ByDepth, depths: &[u32]) -> Result<Depths, Memory> {
    let mut sum = Tally::<bool>::none(tally, alloc)?;
    for depth in depths {
        tally.note(&mut sum, &true, *depth);
    }
    Ok(sum)
}

#[test]
fn counts_by_depth(rt: HostRuntime) -> Result<(), Fail> {
    let tally = ByDepth { depths: 2 };
    let none = noted(rt.alloc(), &tally, &[])?;
    assert_eq!(rt; none.counts(), [0, 0, 0].as_slice());
    let sum = noted(rt.alloc(), &tally, &[0, 1, 2, 2, 3, 65535])?;
    assert_eq!(rt; sum.counts(), [1, 1, 2].as_slice());
    Ok(())
}

#[test]
fn wrapped(rt: HostRuntime) -> Result<(), Fail> {
    let alloc = rt.alloc();
    let root = Path::empty(alloc, 0)?;
    let child = root.child(0)?;
    let counted = Counted { inner: &Twig };
    assert_eq!(rt; counted.root(alloc)?, true);
    assert_eq!(rt; rebuild(alloc, &counted, &child)?, Some(false));
    assert_eq!(rt; (counted.worth(&false), counted.bound(&false)), (0, 1));
    let clipped = Clipped {
        inner: &Twig,
        target: 3,
    };
    assert_eq!(rt; rebuild(alloc, &clipped, &child)?, Some(false));
    assert_eq!(rt; rebuild(alloc, &clipped, &child.child(0)?)?, None);
    assert_eq!(rt;
        (
            clipped.worth(&true),
            clipped.worth(&false),
            clipped.bound(&true)
        ),
        (0, 1, 1)
    );
    let above = Clipped {
        inner: &Twig,
        target: 4,
    };
    assert_eq!(rt; (above.worth(&false), above.bound(&false)), (0, 0));
    Ok(())
}

#[test]
fn nothing_kept(rt: HostRuntime) -> Result<(), Fail> {
    let mut sum = Tally::<bool>::none(&NoTally, rt.alloc())?;
    NoTally.note(&mut sum, &true, 0);
    Tally::<bool>::join(&NoTally, &mut sum, ());
    assert_eq!(rt; sum, ());
    Ok(())
}

use crate::{Semigroups, count_text};
use std::alloc::Global;
use std::test::Fail;
use yew_laws::{Memory, Path, rebuild};

/// The path with these numbers.
fn path_of(alloc: Global, numbers: &[u32]) -> Result<Path, Memory> {
    let mut path = Path::empty(alloc, 0)?;
    for number in numbers {
        path = path.child(*number)?;
    }
    Ok(path)
}

/// The gaps of the semigroup at a path of the tree to genus 5, where there is one.
fn gaps_at(alloc: Global, numbers: &[u32]) -> Result<Option<Vec<u32>>, Memory> {
    let path = path_of(alloc, numbers)?;
    match rebuild(alloc, &Semigroups::new(5), &path)? {
        None => Ok(None),
        Some(semigroup) => {
            let mut gaps = Vec::new(alloc);
            for number in 0..130 {
                if semigroup.is_gap(number) {
                    gaps.push(number)?;
                }
            }
            Ok(Some(gaps))
        }
    }
}

/// Whether a list of gaps is this one.
fn are(gaps: &Option<Vec<u32>>, wanted: &[u32]) -> bool {
    match gaps {
        None => false,
        Some(gaps) => gaps.as_slice() == wanted,
    }
}

/// Whether a number is a sum of two members from 1 up, looked for one by one.
fn is_sum(gaps: &[u32], number: u32) -> bool {
    for a in 1..number {
        if !gaps.contains(&a) && !gaps.contains(&(number - a)) {
            return true;
        }
    }
    false
}

/// The minimal generators above every gap, looked for one by one.
fn slow_generators(alloc: Global, gaps: &[u32]) -> Result<Vec<u32>, Memory> {
    let mut generators = Vec::new(alloc);
    for number in 1..30 {
        if gaps.iter().all(|gap| *gap < number) && !is_sum(gaps, number) {
            generators.push(number)?;
        }
    }
    Ok(generators)
}

/// Whether the children at a path are those that take out these generators, and no others.
fn children_are(
    alloc: Global,
    path: &[u32],
    gaps: &[u32],
    generators: &[u32],
) -> Result<bool, Memory> {
    for number in 0..20 {
        let mut longer = path.to_vec(alloc)?;
        longer.push(number)?;
        let found = gaps_at(alloc, longer.as_slice())?;
        let right = match generators.get(number as usize) {
            None => found.is_none(),
            Some(generator) => {
                let mut wanted = gaps.to_vec(alloc)?;
                wanted.push(*generator)?;
                are(&found, wanted.as_slice())
            }
        };
        if !right {
            return Ok(false);
        }
    }
    Ok(true)
}

/// Small semigroups by their paths, with their gaps: each has the children that are found one by one.
#[test]
fn children_one_by_one(rt: HostRuntime) -> Result<(), Fail> {
    let alloc = rt.alloc();
    let rows: [(&[u32], &[u32]); 9] = [
        (&[], &[]),
        (&[0], &[1]),
        (&[0, 0], &[1, 2]),
        (&[0, 1], &[1, 3]),
        (&[0, 0, 0], &[1, 2, 3]),
        (&[0, 0, 1], &[1, 2, 4]),
        (&[0, 0, 2], &[1, 2, 5]),
        (&[0, 1, 0], &[1, 3, 5]),
        (&[0, 0, 1, 0], &[1, 2, 4, 5]),
    ];
    for (path, gaps) in rows {
        assert!(rt; are(&gaps_at(alloc, path)?, gaps));
        let generators = slow_generators(alloc, gaps)?;
        assert!(rt; children_are(alloc, path, gaps, generators.as_slice())?);
    }
    Ok(())
}

/// A node of the last genus has no children, though it has generators.
#[test]
fn last_genus(rt: HostRuntime) -> Result<(), Fail> {
    let alloc = rt.alloc();
    assert!(rt; are(&gaps_at(alloc, &[0, 0, 1, 0, 0])?, &[1, 2, 4, 5, 7]));
    assert_eq!(rt;
        slow_generators(alloc, &[1, 2, 4, 5, 7])?.as_slice(),
        [8, 10].as_slice()
    );
    assert!(rt; gaps_at(alloc, &[0, 0, 1, 0, 0, 0])?.is_none());
    Ok(())
}

#[test]
fn text_of_counts(rt: HostRuntime) -> Result<(), Fail> {
    let alloc = rt.alloc();
    assert_eq!(rt; count_text(alloc, &[])?.as_slice(), b"".as_slice());
    assert_eq!(rt;
        count_text(alloc, &[1, 1, 2])?.as_slice(),
        b"0 1\n1 1\n2 2\n".as_slice()
    );
    let text = count_text(alloc, &[u64::MAX - 1, u64::MAX])?;
    assert_eq!(rt;
        text.as_slice(),
        b"0 18446744073709551614\n1 >=18446744073709551615\n".as_slice()
    );
    Ok(())
}

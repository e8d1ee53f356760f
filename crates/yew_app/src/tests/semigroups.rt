//! Semigroups against the published counts.

use super::{CALM, run};
use std::test::Fail;
use yew_lines::{push_line_end, push_number, push_spaced};

/// The numbers of numerical semigroups of genus 0 to 22 (The On-Line Encyclopedia of Integer Sequences, A007323).
#[test]
fn semigroups_by_genus(rt: HostRuntime) -> Result<(), Fail> {
    let alloc = rt.alloc();
    let counts = [
        1, 1, 2, 4, 7, 12, 23, 39, 67, 118, 204, 343, 592, 1001, 1693, 2857, 4806, 8045, 13467,
        22464, 37396, 62194, 103246,
    ];
    let mut text = Vec::new(alloc);
    for (genus, count) in counts.iter().enumerate() {
        push_number(&mut text, genus as u64)?;
        push_spaced(&mut text, *count)?;
        push_line_end(&mut text)?;
    }
    let ended = run(alloc, "semigroups sequential --genus 22", &[], CALM)?;
    assert_eq!(rt; ended.status, 0);
    assert_eq!(rt; ended.out.as_slice(), text.as_slice());
    assert!(rt; ended.err.is_empty());
    Ok(())
}

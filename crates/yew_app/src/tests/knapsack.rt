//! Knapsacks against all sets of items.

use super::{CALM, run};
use std::test::Fail;
use yew_lines::{push_line_end, push_number, push_numbers_line, push_spaced};

/// The best profit, over all sets of items.
fn slow_best(items: &[(u64, u64)], capacity: u64) -> u64 {
    let mut best = 0u64;
    for set in 0..1u32 << 12 {
        let mut rest = set;
        let mut profit = 0u64;
        let mut weight = 0u64;
        for (gain, load) in items {
            if rest % 2 == 1 {
                profit = profit.wrapping_add(*gain);
                weight = weight.wrapping_add(*load);
            }
            rest /= 2;
        }
        if weight <= capacity {
            best = best.max(profit);
        }
    }
    best
}

#[test]
fn the_best_of_all_sets(rt: HostRuntime) -> Result<(), Fail> {
    let alloc = rt.alloc();
    let mut draw = 12345u64;
    for round in 0..40u64 {
        let mut items = Vec::new(alloc);
        for _item in 0..12 {
            draw = draw
                .wrapping_mul(6364136223846793005)
                .wrapping_add(1442695040888963407);
            items.push(((draw >> 33) % 30, (draw >> 48) % 12))?;
        }
        let capacity = round * 2;
        let mut file = Vec::new(alloc);
        push_number(&mut file, 12)?;
        push_spaced(&mut file, capacity)?;
        push_line_end(&mut file)?;
        for (profit, weight) in &items {
            push_number(&mut file, *profit)?;
            push_spaced(&mut file, *weight)?;
            push_line_end(&mut file)?;
        }
        let ended = run(alloc, "knapsack sequential f", &[("f", &file)], CALM)?;
        let mut line = Vec::new(alloc);
        push_numbers_line(&mut line, b"best", &[slow_best(&items, capacity)])?;
        assert_eq!(rt; ended.status, 0);
        assert!(rt; ended.out.starts_with(&line));
    }
    Ok(())
}

//! The files of the worked runs.

use super::lines;
use std::alloc::Global;
use std::test::Fail;
use yew_lines::{push_line_end, push_number, push_spaced};

/// Ten items, of which 1, 2, 3, 4 and 6 fill the knapsack and have the profit 309. No other set has it: the first four
/// leave room for 38, and the bound is 266 + 60 * 38 / 53.
pub const TEN: &[u8] =
    b"10 165\n92 23\n57 31\n49 29\n68 44\n60 53\n43 38\n67 63\n84 85\n87 89\n72 82\n";

/// The lines of a file of four cities, whose shortest tour 1 2 4 3 has the length 10 + 25 + 30 + 15.
const FOUR_LINES: [&str; 11] = [
    "NAME: four",
    "TYPE: TSP",
    "DIMENSION: 4",
    "EDGE_WEIGHT_TYPE: EXPLICIT",
    "EDGE_WEIGHT_FORMAT: FULL_MATRIX",
    "EDGE_WEIGHT_SECTION",
    "0 10 15 20",
    "10 0 35 25",
    "15 35 0 30",
    "20 25 30 0",
    "EOF",
];

/// The file of four cities with other lines in place of one of them, counted from 1.
pub fn four_cities(alloc: Global, line: usize, instead: &[&str]) -> Result<Vec<u8>, Fail> {
    let mut text = Vec::new(alloc);
    for (place, old) in FOUR_LINES.iter().enumerate() {
        if place.saturating_add(1) == line {
            text.extend_from_slice(&lines(alloc, instead)?)?;
        } else {
            text.extend_from_slice(&lines(alloc, &[*old])?)?;
        }
    }
    Ok(text)
}

/// The file of four cities in another format.
pub fn four_cities_in(alloc: Global, format: &str, matrix: &[&str]) -> Result<Vec<u8>, Fail> {
    let mut text = lines(
        alloc,
        &[
            "NAME: four",
            "TYPE: TSP",
            "DIMENSION: 4",
            "EDGE_WEIGHT_TYPE: EXPLICIT",
        ],
    )?;
    text.extend_from_slice(b"EDGE_WEIGHT_FORMAT: ")?;
    text.extend_from_slice(format.as_bytes())?;
    text.extend_from_slice(b"\nEDGE_WEIGHT_SECTION\n")?;
    text.extend_from_slice(&lines(alloc, matrix)?)?;
    text.extend_from_slice(b"EOF\n")?;
    Ok(text)
}

/// So many items, all of one profit and of weight 1, and as much room.
pub fn equal_items(alloc: Global, items: u64, capacity: u64, profit: u64) -> Result<Vec<u8>, Fail> {
    let mut text = Vec::new(alloc);
    push_number(&mut text, items)?;
    push_spaced(&mut text, capacity)?;
    push_line_end(&mut text)?;
    for _item in 0..items {
        push_number(&mut text, profit)?;
        text.extend_from_slice(b" 1\n")?;
    }
    Ok(text)
}

/// Two halves of 512 vertices, of which each is joined to the whole other half.
pub fn two_halves(alloc: Global) -> Result<Vec<u8>, Fail> {
    let mut text = Vec::from_slice(alloc, b"1024\n")?;
    for vertex in 0..1024u64 {
        push_number(&mut text, 512)?;
        let first = if vertex < 512 { 512 } else { 0 };
        for place in 0..512u64 {
            push_spaced(&mut text, place.saturating_add(first))?;
        }
        push_line_end(&mut text)?;
    }
    Ok(text)
}

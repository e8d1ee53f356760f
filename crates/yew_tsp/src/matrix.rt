//! The numbers of a matrix, and the weights that they are.

ghost use Rattle.std.specs.Prelude.{◌≡◌, ◌+◌, ◌-◌, ◌*◌, ◌<◌, ◌≤◌, ◌++◌, length, map, zip, IfOk, OnOk};
ghost use Rattle.std.specs.List.{range_with_len};
ghost use Rattle.yew_tsp.specs.Matrices.{first_column as first_column_of, row_length as row_length_of, row_start as row_start_of, has_place, places, matrix_count, weight_from, weights_of};

use crate::header::Format;
use std::alloc::Global;
use yew_laws::Memory;

impl Format {
    /// Whether a matrix has the place of two different cities, and not only that of their mirror.
    fn has(self, row: usize, column: usize) -> bool
        ensures { result ≡ has_place self row column }
    {
        match self {
            Format::FullMatrix => true,
            Format::UpperRow | Format::UpperDiagRow => row < column,
            Format::LowerRow | Format::LowerDiagRow => column < row,
        }
    }

    /// The first column of a row.
    fn first_column(self, row: usize) -> usize
        requires { row ≤ 60 }
        ensures { result ≡ first_column_of self row }
    {
        match self {
            Format::FullMatrix | Format::LowerRow | Format::LowerDiagRow => 1,
            Format::UpperRow => row + 1,
            Format::UpperDiagRow => row,
        }
    }

    /// How many columns a matrix of so many cities has of a row.
    fn row_length(self, cities: usize, row: usize) -> usize
        requires cities { cities ≤ 60 }
        requires row { (1 ≤ row) × (row ≤ cities) }
        ensures { result ≡ row_length_of self cities row }
    {
        match self {
            Format::FullMatrix => cities,
            Format::UpperRow => cities - row,
            Format::LowerRow => row - 1,
            Format::UpperDiagRow => cities + 1 - row,
            Format::LowerDiagRow => row,
        }
    }

    /// How many numbers stand before those of a row.
    fn row_start(self, cities: usize, row: usize) -> usize
        requires cities { cities ≤ 60 }
        requires row { (1 ≤ row) × (row ≤ cities) }
        ensures { result ≡ row_start_of self cities row }
    {
        let mut start = 0;
        for before in 1..row {
            start += self.row_length(cities, before);
        }
        start
    }

    /// How many numbers a matrix of so many cities has.
    pub(crate) fn count(self, cities: u64) -> u128
        requires { 1 ≤ cities }
        ensures { result ≡ matrix_count self cities }
    {
        let n = cities as u128;
        match self {
            Format::FullMatrix => n * n,
            Format::UpperRow | Format::LowerRow => n * (n - 1) / 2,
            Format::UpperDiagRow | Format::LowerDiagRow => n * (n + 1) / 2,
        }
    }
}

/// The numbers of a matrix, row by row as its format has them.
#[derive(Clone, Copy)]
struct Matrix<'a> {
    format: Format,
    cities: usize,
    numbers: &'a [u32],
}

impl Matrix<'_> {
    /// The weight from one city to another: the number at its place, or where the format lacks it the number at the place
    /// of its mirror. No weight is from a city to itself.
    fn weight(&self, row: usize, column: usize) -> u32
        requires few { self.now.cities ≤ 60 }
        requires count { length self.now.numbers.now ≡ matrix_count self.now.format self.now.cities }
        requires row { (1 ≤ row) × (row ≤ self.now.cities) }
        requires column { (1 ≤ column) × (column ≤ self.now.cities) }
        ensures { result ≡ weight_from (zip (places self.now.format self.now.cities) self.now.numbers.now) row column }
    {
        if row == column {
            return 0;
        }
        if self.format.has(row, column) {
            let start = self.format.row_start(self.cities, row);
            return self.numbers[start + (column - self.format.first_column(row))];
        }
        let start = self.format.row_start(self.cities, column);
        self.numbers[start + (row - self.format.first_column(column))]
    }

    /// Appends the weights from one city.
    fn push_row(&self, weights: &mut Vec<u32>, row: usize) -> Result<(), Memory>
        requires few { self.now.cities ≤ 60 }
        requires count { length self.now.numbers.now ≡ matrix_count self.now.format self.now.cities }
        requires row { (1 ≤ row) × (row ≤ self.now.cities) }
        ensures { OnOk result (weights.new.items ≡ weights.old.items ++ map (weight_from (zip (places self.now.format self.now.cities) self.now.numbers.now) row) (range_with_len 1 self.now.cities)) }
    {
        for column in 1..self.cities + 1 {
            weights.push(self.weight(row, column))?;
        }
        Ok(())
    }
}

/// The weights from each city to each, row by row, that the numbers of a matrix are.
pub(crate) fn weights(
    alloc: Global,
    format: Format,
    cities: usize,
    numbers: &[u32],
) -> Result<Vec<u32>, Memory>
    requires few { cities ≤ 60 }
    requires count { length numbers.now ≡ matrix_count format cities }
    ensures { IfOk result (λ weights. weights.items ≡ weights_of format cities numbers.now) }
{
    let matrix = Matrix {
        format,
        cities,
        numbers,
    };
    let mut weights = Vec::with_capacity(alloc, cities * cities)?;
    for row in 1..cities + 1 {
        matrix.push_row(&mut weights, row)?;
    }
    Ok(weights)
}

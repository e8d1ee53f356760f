//! Tables of bits: rows of the same number of words of 64 bits.

ghost use Rattle.std.specs.Prelude.{◌≡◌, ◌+◌, ◌*◌, ◌<◌, ◌≤◌, IfOk};
ghost use Rattle.yew_lad.specs.Bits.{BitTable as Bits, empty_table, in_row, AreBits, SetsBit, PutsBit};

use std::alloc::Global;
use std::marker::Model;
use yew_laws::Memory;

/// Rows of bits, each of `width` words of 64 bits, one after another.
#[derive(Drop)]
pub struct BitTable {
    rows: usize,
    width: usize,
    words: Vec<u64>,
}

impl Model for BitTable {
    ghost use Rattle.std.specs.Prelude.{◌≡◌, ◌*◌, ◌≤◌, length};
    ghost use Rattle.yew_lad.specs.Bits.{BitTable as Bits};

    ghost Value = { Bits };

    ghost view = { λ a. record { rows = a.rows; width = a.width; words = a.words.items } };

    ghost invariant = { λ a. (length a.words.items ≡ a.rows * a.width) × (a.rows ≤ 1024) × (a.width ≤ 16) };
}

impl BitTable {
    /// A table without a bit, of at most 1,024 rows of at most 16 words.
    pub fn empty(alloc: Global, rows: usize, width: usize) -> Result<BitTable, Memory>
        requires rows { rows ≤ 1024 }
        requires width { width ≤ 16 }
        ensures { IfOk result (λ table. table ≡ empty_table rows width) }
    {
        let words = vec![in alloc; 0u64; rows * width]?;
        Ok(BitTable { rows, width, words })
    }

    /// How many rows there are.
    #[inline(always)]
    pub fn rows(&self) -> usize
        ensures { result ≡ self.now.rows }
    {
        self.rows
    }

    /// How many words a row has.
    #[inline(always)]
    pub fn width(&self) -> usize
        ensures value { result ≡ self.now.width }
        ensures small { result ≤ 16 }
    {
        self.width
    }

    /// Whether a bit is in a row.
    #[inline(always)]
    pub fn has(&self, row: usize, bit: usize) -> bool
        requires row { row < self.now.rows }
        requires bit { bit < 64 * self.now.width }
        ensures { result ≡ in_row self.now row bit }
    {
        self.words[row * self.width + bit / 64] >> (bit % 64) & 1 == 1
    }

    /// Sets a bit of a row.
    pub fn set(&mut self, row: usize, bit: usize)
        requires row { row < self.old.rows }
        requires bit { bit < 64 * self.old.width }
        ensures { SetsBit self.old row bit self.new }
    {
        self.words[row * self.width + bit / 64] |= 1 << (bit % 64);
    }

    /// Sets a bit of a row where `value` is true, and changes nothing else.
    pub fn put(&mut self, row: usize, bit: usize, value: bool)
        requires row { row < self.old.rows }
        requires bit { bit < 64 * self.old.width }
        ensures { PutsBit self.old row bit value self.new }
    {
        if value {
            self.set(row, bit);
        }
    }

    /// A word of a row: its bits are those of the row from 64 times the word's number on.
    #[inline(always)]
    pub fn word(&self, row: usize, number: usize) -> u64
        requires row { row < self.now.rows }
        requires number { number < self.now.width }
        ensures { AreBits result (λ k. in_row self.now row (64 * number + k)) }
    {
        self.words[row * self.width + number]
    }

    /// The word of a row that has one alone.
    #[inline(always)]
    pub fn only_word(&self, row: usize) -> u64
        requires row { row < self.now.rows }
        requires width { self.now.width ≡ 1 }
        ensures { AreBits result (in_row self.now row) }
    {
        self.words[row]
    }
}

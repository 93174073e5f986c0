//! Marks in rows.

ghost use Rattle.std.specs.Prelude.{◌≡◌, ◌<◌, ◌≤◌, ◌+◌, ◌%◌, ◌^◌, ◌==◌, ℕ, true, if◌then◌else◌, IfOk};
ghost use Rattle.ledger_table.specs.Table.{mark_of, no_marks, row_stamp};

use crate::cells::Cells;
use r4_words::Memory;
use std::alloc::{AllocError, Global};
use std::marker::Model;

/// Marks of 8 bits in rows: a cell whose mark is 0 has none.
#[derive(Drop)]
pub struct Marks {
    cells: usize,
    rows: usize,
    // Where the rows are a power of two, its logarithm, by which a cell's row is found without a division.
    row_bits: u32,
    is_power: bool,
    counted: Cells,
}

impl Model for Marks {
    ghost use Rattle.std.specs.Prelude.{◌≡◌, ◌<◌, ◌^◌, true};
    ghost use Rattle.ledger_table.specs.Table.{IsTable, Table};

    ghost Value = { Table };

    ghost view = { λ m. record { cells = m.cells; rows = m.rows; counted = m.counted } };

    ghost invariant = { λ m. IsTable (record { cells = m.cells; rows = m.rows; counted = m.counted })
        × (m.is_power ≡ true → 2 ^ m.row_bits ≡ m.rows)
        × (m.row_bits < 64) };
}

impl Marks {
    /// Cells without a mark, in so many rows of one length.
    pub fn new(alloc: Global, cells: usize, rows: usize) -> Result<Marks, Memory>
        requires some { 0 < rows }
        requires whole { cells % rows ≡ 0 }
        ensures { IfOk result (λ marks. marks ≡ no_marks cells rows) }
    {
        let Some(pairs) = cells.checked_mul(2) else {
            return Err(AllocError);
        };
        let Some(len) = pairs.checked_add(rows) else {
            return Err(AllocError);
        };
        let row_bits = rows.trailing_zeros().min(63);
        Ok(Marks {
            cells,
            rows,
            row_bits,
            is_power: 1 << row_bits == rows,
            counted: Cells::new(alloc, len)?,
        })
    }

    /// How often a number of the table was read or written.
    #[inline]
    pub fn touches(&self) -> u64
        ensures { result ≡ self.now.counted.touches }
    {
        self.counted.touches()
    }

    // The row of a cell.
    #[inline]
    fn row(&self, cell: usize) -> usize
        ensures row { result ≡ cell % self.now.rows }
        ensures inside { result < self.now.rows }
    {
        if self.is_power {
            cell & ((1 << self.row_bits) - 1)
        } else {
            cell % self.rows
        }
    }

    /// The mark of a cell.
    #[inline]
    pub fn get(&mut self, cell: usize) -> u8
        requires { cell < self.old.cells }
        ensures mark { result ≡ mark_of self.old cell }
        ensures kept { self.new ≡ record self.old {
          counted = record self.old.counted { touches = self.new.counted.touches };
        } }
        ensures touches { self.new.counted.touches ≤ self.old.counted.touches + 3 }
    {
        let mark = self.counted.get(2 * cell + 1) as u8;
        if mark == 0 {
            return 0;
        }
        let row = self.row(cell);
        let stamp = self.counted.get(2 * self.cells + row);
        if self.counted.get(2 * cell) == stamp {
            mark
        } else {
            0
        }
    }

    /// Replaces the mark of a cell, and of no other.
    #[inline]
    pub fn set(&mut self, cell: usize, value: u8)
        requires { cell < self.old.cells }
        ensures marks { (other : ℕ) → other < self.old.cells →
            mark_of self.new other ≡ (if other == cell then value else mark_of self.old other) }
        ensures stamps { (row : ℕ) → row_stamp self.new row ≡ row_stamp self.old row }
        ensures cells { self.new.cells ≡ self.old.cells }
        ensures rows { self.new.rows ≡ self.old.rows }
        ensures touches { self.new.counted.touches ≤ self.old.counted.touches + 3 }
    {
        let row = self.row(cell);
        let stamp = self.counted.get(2 * self.cells + row);
        self.counted.set(2 * cell, stamp);
        self.counted.set(2 * cell + 1, u64::from(value));
    }

    /// Takes the marks of the cells of a row away, and of no others.
    #[inline]
    pub fn clear_row(&mut self, row: usize)
        requires row { row < self.old.rows }
        requires stamp { row_stamp self.old row < 18446744073709551615 }
        ensures marks { (cell : ℕ) → cell < self.old.cells →
            mark_of self.new cell ≡ (if (cell % self.old.rows) == row then 0 else mark_of self.old cell) }
        ensures stamps { (other : ℕ) →
            row_stamp self.new other ≡ (if other == row then row_stamp self.old row + 1 else row_stamp self.old other) }
        ensures cells { self.new.cells ≡ self.old.cells }
        ensures rows { self.new.rows ≡ self.old.rows }
        ensures touches { self.new.counted.touches ≤ self.old.counted.touches + 2 }
    {
        let stamp = self.counted.get(2 * self.cells + row);
        self.counted.set(2 * self.cells + row, stamp + 1);
    }
}

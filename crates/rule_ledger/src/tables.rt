//! The marks of a ledger: what may be so of the copies that the primary caches hold.

ghost use Rattle.std.specs.Prelude.{◌≡◌, ◌<◌, ◌≤◌, ◌+◌, ◌*◌, ◌/◌, ◌%◌, ℕ, true, false, IfOk};
ghost use Rattle.r4_shape.specs.Address.{colour, granule, index};
ghost use Rattle.r4_shape.specs.Numbers.{IsShape, colours, places};
ghost use Rattle.rule_ledger.specs.Cells.{grid_of, meets};
ghost use Rattle.rule_ledger.specs.Events.{beat_granules};
ghost use Rattle.rule_ledger.specs.Facts.{at_index, granules, no_facts, other_colours};
ghost use Rattle.rule_ledger.specs.MarkFlags.{aged, all_aged, data_at, data_cleared, instruction_at, instructions_aged, instructions_cleared, with_data, with_instruction};
ghost use Rattle.rule_ledger.specs.Marks.{facts_of, place_of, touches_of};
ghost use Rattle.rule_ledger.specs.Steps.{Counts, IsLeft, Keeps, Reads};
ghost use Rattle.ledger_table.specs.Table.{row_stamp};

use crate::marks::{DataMark, InstructionMark};
use ledger_table::Marks;
use r4_shape::Shape;
use r4_words::Memory;
use std::alloc::Global;
use std::marker::Model;

/// The bytes of RAM, and its pages.
const RAM_SIZE: u32 = 8388608;

const PAGES: u32 = RAM_SIZE / 4096;

/// The marks of a machine without a secondary cache: the number that its shape gives a copy is the place of the copy's mark.
#[derive(Drop)]
pub struct Tables {
    shape: Shape,
    data_marks: Marks,
    instruction_marks: Marks,
    steps: u64,
}

impl Model for Tables {
    ghost use Rattle.rule_ledger.specs.Marks.{Ledger};
    ghost use Rattle.r4_shape.specs.Numbers.{IsShape};
    ghost use Rattle.rule_ledger.specs.Kept.{IsCounted, IsTableOf};

    ghost Value = { Ledger };

    ghost view = { λ p. record {
      shape = p.shape;
      data_table = p.data_marks;
      instruction_table = p.instruction_marks;
      steps = p.steps;
    } };

    ghost invariant = { λ p. IsShape p.shape
        × IsTableOf p.shape p.data_marks
        × IsTableOf p.shape p.instruction_marks
        × IsCounted p.steps p.data_marks
        × IsCounted p.steps p.instruction_marks };
}

impl Tables {
    /// Tables without a mark.
    pub fn new(alloc: Global, shape: Shape) -> Result<Tables, Memory>
        requires { shape.sc ≡ false }
        ensures shape { IfOk result (λ tables. tables.shape ≡ shape) }
        ensures is { IfOk result (λ tables. IsShape tables.shape) }
        ensures facts { IfOk result (λ tables. facts_of tables ≡ no_facts) }
        ensures steps { IfOk result (λ tables. tables.steps ≡ 0) }
    {
        // What each shape keeps is known of one that was asked.
        let _is_one = shape.sc();
        let lines = shape.places() as usize;
        let cells = (shape.lines_in(RAM_SIZE) * shape.colours()) as usize;
        Ok(Tables {
            shape,
            data_marks: Marks::new(alloc, cells, lines)?,
            instruction_marks: Marks::new(alloc, cells, lines)?,
            steps: 0,
        })
    }

    // The place of a cell in its table.
    #[inline]
    pub(crate) fn place(&self, granule: u32, colour: u32) -> usize
        requires granule { granule < (grid_of self.now.shape).whole }
        requires colour { colour < colours self.now.shape }
        ensures place { result ≡ place_of (grid_of self.now.shape) granule colour }
        ensures in_data { result < self.now.data_table.cells }
        ensures in_instructions { result < self.now.instruction_table.cells }
    {
        self.shape.copy_of(granule, colour) as usize
    }

    // What the ledger has of a cell of the data cache.
    #[inline]
    pub(crate) fn data_mark(&mut self, granule: u32, colour: u32) -> DataMark
        requires granule { granule < (grid_of self.old.shape).whole }
        requires colour { colour < colours self.old.shape }
        ensures mark { result ≡ data_at (facts_of self.old) granule colour }
        ensures reads { Reads self.old self.new }
    {
        let place = self.place(granule, colour);
        DataMark::from_bits(self.data_marks.get(place))
    }

    // The place of the cell that an access means. Its addresses have one place in their pages.
    #[inline]
    pub(crate) fn place_of_access(&self, pa: u64, va: u32) -> usize
        requires ram { pa < 8388608 }
        requires page { pa % 4096 ≡ va % 4096 }
        ensures place { let shape = self.now.shape in
            result ≡ place_of (grid_of shape) (granule shape pa) (colour shape va) }
        ensures in_data { result < self.now.data_table.cells }
        ensures in_instructions { result < self.now.instruction_table.cells }
    {
        self.shape.accessed_copy(pa, va) as usize
    }

    // What the ledger has of the copy in the data cache that an access means.
    #[inline]
    pub(crate) fn accessed_data(&mut self, pa: u64, va: u32) -> DataMark
        requires ram { pa < 8388608 }
        requires page { pa % 4096 ≡ va % 4096 }
        ensures mark { let shape = self.old.shape in
            result ≡ data_at (facts_of self.old) (granule shape pa) (colour shape va) }
        ensures is_shape { IsShape self.old.shape }
        ensures reads { Reads self.old self.new }
    {
        let place = self.place_of_access(pa, va);
        DataMark::from_bits(self.data_marks.get(place))
    }

    // The same in the instruction cache.
    #[inline]
    pub(crate) fn accessed_instruction(&mut self, pa: u64, va: u32) -> InstructionMark
        requires ram { pa < 8388608 }
        requires page { pa % 4096 ≡ va % 4096 }
        ensures mark { let shape = self.old.shape in
            result ≡ instruction_at (facts_of self.old) (granule shape pa) (colour shape va) }
        ensures is_shape { IsShape self.old.shape }
        ensures reads { Reads self.old self.new }
    {
        let place = self.place_of_access(pa, va);
        InstructionMark::from_bits(self.instruction_marks.get(place))
    }

    // Replaces what the ledger has of a cell of the data cache.
    #[inline]
    pub(crate) fn put_data_mark(&mut self, granule: u32, colour: u32, mark: DataMark)
        requires granule { granule < (grid_of self.old.shape).whole }
        requires colour { colour < colours self.old.shape }
        ensures facts { facts_of self.new ≡ with_data granule colour mark (facts_of self.old) }
        ensures kept { Keeps self.old self.new }
    {
        let place = self.place(granule, colour);
        self.data_marks.set(place, mark.bits());
    }

    // The same of the instruction cache.
    #[inline]
    pub(crate) fn instruction_mark(&mut self, granule: u32, colour: u32) -> InstructionMark
        requires granule { granule < (grid_of self.old.shape).whole }
        requires colour { colour < colours self.old.shape }
        ensures mark { result ≡ instruction_at (facts_of self.old) granule colour }
        ensures reads { Reads self.old self.new }
    {
        let place = self.place(granule, colour);
        InstructionMark::from_bits(self.instruction_marks.get(place))
    }

    #[inline]
    pub(crate) fn put_instruction_mark(&mut self, granule: u32, colour: u32, mark: InstructionMark)
        requires granule { granule < (grid_of self.old.shape).whole }
        requires colour { colour < colours self.old.shape }
        ensures facts { facts_of self.new ≡ with_instruction granule colour mark (facts_of self.old) }
        ensures kept { Keeps self.old self.new }
    {
        let place = self.place(granule, colour);
        self.instruction_marks.set(place, mark.bits());
    }

    // Whether the granule may be dirty at another colour.
    #[inline]
    pub(crate) fn is_dirty_elsewhere(&mut self, granule: u32, colour: u32) -> bool
        requires { granule < (grid_of self.old.shape).whole }
        ensures is { result ≡ meets (grid_of self.old.shape) (other_colours granule colour) (facts_of self.old).dirty }
        ensures reads { Reads self.old self.new }
    {
        for other in 0..self.shape.colours() {
            if other != colour && self.data_mark(granule, other).dirty {
                return true;
            }
        }
        false
    }

    // Whether the granule may be dirty at a colour.
    #[inline]
    pub(crate) fn is_dirty(&mut self, granule: u32) -> bool
        requires { granule < (grid_of self.old.shape).whole }
        ensures is { result ≡ meets (grid_of self.old.shape) (granules granule 1) (facts_of self.old).dirty }
        ensures reads { Reads self.old self.new }
    {
        for colour in 0..self.shape.colours() {
            if self.data_mark(granule, colour).dirty {
                return true;
            }
        }
        false
    }

    // Whether the granule is dirty at no colour, and each copy of it that is held in either cache is old.
    #[inline]
    pub(crate) fn is_left(&mut self, granule: u32) -> bool
        requires { granule < (grid_of self.old.shape).whole }
        ensures is { result ≡ true → IsLeft (facts_of self.old) granule (grid_of self.old.shape).colours }
        ensures reads { Reads self.old self.new }
    {
        for colour in 0..self.shape.colours() {
            if !self.data_mark(granule, colour).is_left() {
                return false;
            }
            if !self.instruction_mark(granule, colour).is_left() {
                return false;
            }
        }
        true
    }

    // Whether one of so many granules may be dirty.
    pub(crate) fn is_any_dirty(&mut self, first: u32, count: u32) -> bool
        requires { first + count ≤ (grid_of self.old.shape).whole }
        ensures is { result ≡ meets (grid_of self.old.shape) (granules first count) (facts_of self.old).dirty }
        ensures reads { Reads self.old self.new }
    {
        for granule in first..first + count {
            if self.is_dirty(granule) {
                return true;
            }
        }
        false
    }

    // Copies of the granule in the data cache become old, where they are held.
    #[inline]
    pub(crate) fn age(&mut self, granule: u32)
        requires { granule < (grid_of self.old.shape).whole }
        ensures facts { facts_of self.new ≡ aged (granules granule 1) (facts_of self.old) }
        ensures kept { Keeps self.old self.new }
    {
        for colour in 0..self.shape.colours() {
            let mark = self.data_mark(granule, colour);
            let old = mark.held | mark.old;
            self.put_data_mark(granule, colour, DataMark { old, ..mark });
        }
    }

    // The same in the instruction cache.
    #[inline]
    pub(crate) fn age_instructions(&mut self, granule: u32)
        requires { granule < (grid_of self.old.shape).whole }
        ensures facts { facts_of self.new ≡ instructions_aged (granules granule 1) (facts_of self.old) }
        ensures kept { Keeps self.old self.new }
    {
        for colour in 0..self.shape.colours() {
            let mark = self.instruction_mark(granule, colour);
            let old = mark.held | mark.old;
            self.put_instruction_mark(granule, colour, InstructionMark { old, ..mark });
        }
    }

    // There are no copies at an index of the data cache.
    pub(crate) fn clear_data(&mut self, index: u32)
        requires index { index < places self.old.shape }
        requires room { row_stamp self.old.data_table index < self.old.steps }
        ensures facts { facts_of self.new ≡ data_cleared (at_index (grid_of self.old.shape).page index) (facts_of self.old) }
        ensures kept { Keeps self.old self.new }
        ensures touches { touches_of self.new ≤ touches_of self.old + 2 }
    {
        self.data_marks.clear_row(index as usize);
    }

    // The same in the instruction cache.
    pub(crate) fn clear_instructions(&mut self, index: u32)
        requires index { index < places self.old.shape }
        requires room { row_stamp self.old.instruction_table index < self.old.steps }
        ensures facts { facts_of self.new ≡ instructions_cleared (at_index (grid_of self.old.shape).page index) (facts_of self.old) }
        ensures kept { Keeps self.old self.new }
        ensures touches { touches_of self.new ≤ touches_of self.old + 2 }
    {
        self.instruction_marks.clear_row(index as usize);
    }

    // The granule of an address in RAM.
    #[inline]
    pub(crate) fn granule(&self, pa: u64) -> u32
        requires { pa < 8388608 }
        ensures granule { result ≡ granule self.now.shape pa }
        ensures inside { result < (grid_of self.now.shape).whole }
    {
        self.shape.granule(pa)
    }

    // How many granules the beat of the disk at an address has.
    #[inline]
    pub(crate) fn beat_granules(&self, pa: u64) -> u32
        requires ram { pa < 8388608 }
        requires whole { pa % 32 ≡ 0 }
        ensures count { result ≡ beat_granules self.now.shape }
        ensures inside { granule self.now.shape pa + result ≤ (grid_of self.now.shape).whole }
    {
        self.shape.lines_in(32)
    }

    // The colour of a virtual address.
    #[inline]
    pub(crate) fn colour(&self, va: u32) -> u32
        ensures colour { result ≡ colour self.now.shape va }
        ensures inside { result < colours self.now.shape }
    {
        self.shape.colour(va)
    }

    // The index of a virtual address.
    #[inline]
    pub(crate) fn index(&self, va: u32) -> u32
        ensures index { result ≡ index self.now.shape va }
        ensures inside { result < places self.now.shape }
    {
        self.shape.index(va)
    }

    // Whether a granule may be dirty at an index.
    pub(crate) fn is_dirty_at(&mut self, index: u32) -> bool
        requires { index < places self.old.shape }
        ensures is { let grid = grid_of self.old.shape in
            result ≡ meets grid (at_index grid.page index) (facts_of self.old).dirty }
        ensures reads { Reads self.old self.new }
    {
        let page_bits = self.shape.page_bits();
        let colour = index >> page_bits;
        let within = index - (colour << page_bits);
        for page in 0..PAGES {
            let at = (page << page_bits) + within;
            if self.data_mark(at, colour).dirty {
                return true;
            }
        }
        false
    }

    // Copies of so many granules become old in both caches, where they are held.
    pub(crate) fn age_all(&mut self, first: u32, count: u32)
        requires { first + count ≤ (grid_of self.old.shape).whole }
        ensures facts { facts_of self.new ≡ all_aged (granules first count) (facts_of self.old) }
        ensures kept { Keeps self.old self.new }
    {
        for granule in first..first + count {
            self.age(granule);
            self.age_instructions(granule);
        }
    }

    // Counts a step without a breach.
    #[inline]
    pub(crate) fn count_step(&mut self)
        requires { self.old.steps < 18446744073709551615 }
        ensures { Counts self.old self.new }
    {
        self.steps += 1;
    }

    // How often a number of the two tables was read or written.
    pub(crate) fn touches(&self) -> u64
        ensures { result ≡ touches_of self.now }
    {
        self.data_marks
            .touches()
            .saturating_add(self.instruction_marks.touches())
    }
}

//! The rows of the table of rules.

ghost use Rattle.std.specs.Prelude.{◌≡◌, ◌<◌, ◌≤◌, ◌+◌};
ghost use Rattle.r4_shape.specs.Numbers.{colours, places};
ghost use Rattle.rule_ledger.specs.Cells.{grid_of};
ghost use Rattle.rule_ledger.specs.Facts.{at_index, cell, granules};
ghost use Rattle.rule_ledger.specs.Marks.{touches_of};
ghost use Rattle.rule_ledger.specs.Rules as rule;
ghost use Rattle.rule_ledger.specs.Steps.{Follows};

use crate::marks::{DataMark, InstructionMark};
use crate::tables::Tables;
use access_trace::Breach;

impl Tables {
    // What breaks no rule and changes no fact.
    pub(crate) fn pass(&mut self) -> Option<Breach>
        requires { self.old.steps < 18446744073709551615 }
        ensures { Follows rule.harmless self.old self.new result }
    {
        self.count_step();
        None
    }

    // A load through the caches.
    pub(crate) fn load(&mut self, granule: u32, colour: u32) -> Option<Breach>
        requires steps { self.old.steps < 18446744073709551615 }
        requires granule { granule < (grid_of self.old.shape).whole }
        requires colour { colour < colours self.old.shape }
        ensures { Follows (rule.cached_load granule colour) self.old self.new result }
    {
        let mark = self.data_mark(granule, colour);
        if mark.old {
            return Some(Breach::Old);
        }
        if self.is_dirty_elsewhere(granule, colour) {
            return Some(Breach::Owed);
        }
        self.put_data_mark(granule, colour, DataMark { held: true, ..mark });
        self.count_step();
        None
    }

    // A store through the caches.
    pub(crate) fn store(&mut self, granule: u32, colour: u32) -> Option<Breach>
        requires steps { self.old.steps < 18446744073709551615 }
        requires granule { granule < (grid_of self.old.shape).whole }
        requires colour { colour < colours self.old.shape }
        ensures { Follows (rule.cached_store granule colour) self.old self.new result }
    {
        if self.data_mark(granule, colour).old {
            return Some(Breach::Old);
        }
        if self.is_dirty_elsewhere(granule, colour) {
            return Some(Breach::Owed);
        }
        self.age(granule);
        self.age_instructions(granule);
        let stored = DataMark {
            held: true,
            dirty: true,
            old: false,
        };
        self.put_data_mark(granule, colour, stored);
        self.count_step();
        None
    }

    // A fetch through the caches.
    pub(crate) fn fetch(&mut self, granule: u32, colour: u32) -> Option<Breach>
        requires steps { self.old.steps < 18446744073709551615 }
        requires granule { granule < (grid_of self.old.shape).whole }
        requires colour { colour < colours self.old.shape }
        ensures { Follows (rule.cached_fetch granule colour) self.old self.new result }
    {
        let mark = self.instruction_mark(granule, colour);
        if mark.old {
            return Some(Breach::Old);
        }
        if self.is_dirty(granule) {
            return Some(Breach::Owed);
        }
        self.put_instruction_mark(granule, colour, InstructionMark { held: true, ..mark });
        self.count_step();
        None
    }

    // A read of memory past the caches.
    pub(crate) fn read_past(&mut self, first: u32, count: u32) -> Option<Breach>
        requires steps { self.old.steps < 18446744073709551615 }
        requires granules { first + count ≤ (grid_of self.old.shape).whole }
        ensures { Follows (rule.read_past (granules first count)) self.old self.new result }
    {
        if self.is_any_dirty(first, count) {
            return Some(Breach::Owed);
        }
        self.count_step();
        None
    }

    // A write of memory past the caches.
    pub(crate) fn write_past(&mut self, first: u32, count: u32) -> Option<Breach>
        requires steps { self.old.steps < 18446744073709551615 }
        requires granules { first + count ≤ (grid_of self.old.shape).whole }
        ensures { Follows (rule.write_past (granules first count)) self.old self.new result }
    {
        if self.is_any_dirty(first, count) {
            return Some(Breach::Owed);
        }
        self.age_all(first, count);
        self.count_step();
        None
    }

    // Index Invalidate I, and Index Store Tag I of an invalid state.
    pub(crate) fn invalidate_index_i(&mut self, index: u32) -> Option<Breach>
        requires steps { self.old.steps < 18446744073709551615 }
        requires index { index < places self.old.shape }
        ensures follows { Follows (rule.invalidate_i (at_index (grid_of self.old.shape).page index)) self.old self.new result }
        ensures touches { touches_of self.new ≤ touches_of self.old + 2 }
    {
        self.count_step();
        self.clear_instructions(index);
        None
    }

    // Index Writeback Invalidate D.
    pub(crate) fn writeback_invalidate_index_d(&mut self, index: u32) -> Option<Breach>
        requires steps { self.old.steps < 18446744073709551615 }
        requires index { index < places self.old.shape }
        ensures follows { Follows (rule.writeback_invalidate_d (at_index (grid_of self.old.shape).page index)) self.old self.new result }
        ensures touches { touches_of self.new ≤ touches_of self.old + 2 }
    {
        self.count_step();
        self.clear_data(index);
        None
    }

    // Index Store Tag D of an invalid state.
    pub(crate) fn store_tag_d(&mut self, index: u32) -> Option<Breach>
        requires steps { self.old.steps < 18446744073709551615 }
        requires index { index < places self.old.shape }
        ensures { Follows (rule.store_tag_d (at_index (grid_of self.old.shape).page index)) self.old self.new result }
    {
        if self.is_dirty_at(index) {
            return Some(Breach::Lost);
        }
        self.count_step();
        self.clear_data(index);
        None
    }

    // Hit Invalidate I.
    pub(crate) fn hit_invalidate_i(&mut self, granule: u32, colour: u32) -> Option<Breach>
        requires steps { self.old.steps < 18446744073709551615 }
        requires granule { granule < (grid_of self.old.shape).whole }
        requires colour { colour < colours self.old.shape }
        ensures { Follows (rule.invalidate_i (cell granule colour)) self.old self.new result }
    {
        let none = InstructionMark {
            held: false,
            old: false,
        };
        self.put_instruction_mark(granule, colour, none);
        self.count_step();
        None
    }

    // Hit Invalidate D.
    pub(crate) fn hit_invalidate_d(&mut self, granule: u32, colour: u32) -> Option<Breach>
        requires steps { self.old.steps < 18446744073709551615 }
        requires granule { granule < (grid_of self.old.shape).whole }
        requires colour { colour < colours self.old.shape }
        ensures { Follows (rule.hit_invalidate_d (cell granule colour)) self.old self.new result }
    {
        let mark = self.data_mark(granule, colour);
        if mark.dirty {
            return Some(Breach::Lost);
        }
        let none = DataMark {
            held: false,
            old: false,
            ..mark
        };
        self.put_data_mark(granule, colour, none);
        self.count_step();
        None
    }

    // Fill I.
    pub(crate) fn fill_i(&mut self, granule: u32, colour: u32) -> Option<Breach>
        requires steps { self.old.steps < 18446744073709551615 }
        requires granule { granule < (grid_of self.old.shape).whole }
        requires colour { colour < colours self.old.shape }
        ensures { Follows (rule.fill_i granule colour) self.old self.new result }
    {
        if self.is_dirty(granule) {
            return Some(Breach::Owed);
        }
        let filled = InstructionMark {
            held: true,
            old: false,
        };
        self.put_instruction_mark(granule, colour, filled);
        self.count_step();
        None
    }

    // Hit Writeback Invalidate D.
    pub(crate) fn hit_writeback_invalidate_d(&mut self, granule: u32, colour: u32) -> Option<Breach>
        requires steps { self.old.steps < 18446744073709551615 }
        requires granule { granule < (grid_of self.old.shape).whole }
        requires colour { colour < colours self.old.shape }
        ensures { Follows (rule.writeback_invalidate_d (cell granule colour)) self.old self.new result }
    {
        let none = DataMark {
            held: false,
            dirty: false,
            old: false,
        };
        self.put_data_mark(granule, colour, none);
        self.count_step();
        None
    }

    // Hit Writeback D.
    pub(crate) fn hit_writeback_d(&mut self, granule: u32, colour: u32) -> Option<Breach>
        requires steps { self.old.steps < 18446744073709551615 }
        requires granule { granule < (grid_of self.old.shape).whole }
        requires colour { colour < colours self.old.shape }
        ensures { Follows (rule.hit_writeback_d (cell granule colour)) self.old self.new result }
    {
        let mark = self.data_mark(granule, colour);
        self.put_data_mark(
            granule,
            colour,
            DataMark {
                dirty: false,
                ..mark
            },
        );
        self.count_step();
        None
    }
}

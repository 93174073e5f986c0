//! An event is held against its row of the table of rules.

ghost use Rattle.std.specs.Prelude.{◌≡◌, ◌<◌, ◌≤◌, ◌+◌, true};
ghost use Rattle.access_trace.specs.Grammar.{IsEvent};
ghost use Rattle.r4_shape.specs.Address.{colour, granule, index};
ghost use Rattle.r4_shape.specs.Numbers.{colours, places};
ghost use Rattle.rule_ledger.specs.Cells.{grid_of};
ghost use Rattle.rule_ledger.specs.Events.{access_row, beat_granules, hit_row, index_row, is_index_flush, operation_row, row_of, where_in_ram};
ghost use Rattle.rule_ledger.specs.Facts.{at_index};
ghost use Rattle.rule_ledger.specs.Marks.{touches_of};
ghost use Rattle.rule_ledger.specs.Operations.{flushes, is_flush, operation_of};
ghost use Rattle.rule_ledger.specs.Steps.{Follows};

use crate::operations::{HitOperation, IndexOperation, Operation};
use crate::tables::Tables;
use access_trace::{Breach, Event, EventKind};

impl Tables {
    // An access through the caches, or past them.
    fn access(&mut self, event: &Event) -> Option<Breach>
        requires steps { self.old.steps < 18446744073709551615 }
        requires ram { event.now.pa < 8388608 }
        requires grammar { IsEvent event.now }
        ensures { let shape = self.old.shape in
            let g = granule shape event.now.pa in
            let c = colour shape event.now.va in
            Follows (access_row event.now.kind event.now.cached g c (beat_granules shape)) self.old self.new result }
    {
        let granule = self.granule(event.pa);
        let colour = self.colour(event.va);
        match event.kind {
            EventKind::Load if event.cached => self.load(granule, colour),
            EventKind::Store if event.cached => self.store(granule, colour),
            EventKind::Fetch if event.cached => self.fetch(granule, colour),
            EventKind::Load | EventKind::Fetch => self.read_past(granule, 1),
            EventKind::Store => self.write_past(granule, 1),
            EventKind::BeatOut => {
                let count = self.beat_granules(event.pa);
                self.read_past(granule, count)
            }
            EventKind::BeatIn => {
                let count = self.beat_granules(event.pa);
                self.write_past(granule, count)
            }
            EventKind::Cache => self.pass(),
        }
    }

    // An operation on an index.
    fn operate_at(&mut self, operation: IndexOperation, index: u32) -> Option<Breach>
        requires steps { self.old.steps < 18446744073709551615 }
        requires index { index < places self.old.shape }
        ensures follows { Follows (index_row operation (at_index (grid_of self.old.shape).page index)) self.old self.new result }
        ensures touches { flushes operation ≡ true → touches_of self.new ≤ touches_of self.old + 2 }
    {
        match operation {
            IndexOperation::InvalidateI => self.invalidate_index_i(index),
            IndexOperation::WritebackInvalidateD => self.writeback_invalidate_index_d(index),
            IndexOperation::StoreTagD => self.store_tag_d(index),
        }
    }

    // An operation on the line of a granule.
    fn operate_on(&mut self, operation: HitOperation, granule: u32, colour: u32) -> Option<Breach>
        requires steps { self.old.steps < 18446744073709551615 }
        requires granule { granule < (grid_of self.old.shape).whole }
        requires colour { colour < colours self.old.shape }
        ensures { Follows (hit_row operation granule colour) self.old self.new result }
    {
        match operation {
            HitOperation::HitInvalidateI => self.hit_invalidate_i(granule, colour),
            HitOperation::HitInvalidateD => self.hit_invalidate_d(granule, colour),
            HitOperation::FillI => self.fill_i(granule, colour),
            HitOperation::HitWritebackInvalidateD => self.hit_writeback_invalidate_d(
                granule, colour,
            ),
            HitOperation::HitWritebackD => self.hit_writeback_d(granule, colour),
        }
    }

    // An operation on the line of an address, which does nothing outside RAM.
    fn hit(&mut self, operation: HitOperation, event: &Event) -> Option<Breach>
        requires steps { self.old.steps < 18446744073709551615 }
        ensures { let shape = self.old.shape in
            let row = hit_row operation (granule shape event.now.pa) (colour shape event.now.va) in
            Follows (where_in_ram event.now.pa row) self.old self.new result }
    {
        if event.pa < 8388608 {
            let granule = self.granule(event.pa);
            let colour = self.colour(event.va);
            self.operate_on(operation, granule, colour)
        } else {
            self.pass()
        }
    }

    // A CACHE operation.
    fn operate(&mut self, event: &Event) -> Option<Breach>
        requires steps { self.old.steps < 18446744073709551615 }
        ensures follows { let operation = operation_of event.now.size event.now.value in
            Follows (operation_row operation self.old.shape event.now.va event.now.pa) self.old self.new result }
        ensures touches { is_flush (operation_of event.now.size event.now.value) ≡ true →
            touches_of self.new ≤ touches_of self.old + 2 }
    {
        match Operation::from_code(event.size, event.value) {
            Operation::Index(operation) => {
                let index = self.index(event.va);
                self.operate_at(operation, index)
            }
            Operation::Hit(operation) => self.hit(operation, event),
            Operation::Forge => Some(Breach::Forge),
            Operation::Peek => Some(Breach::Peek),
            Operation::Nothing => self.pass(),
        }
    }

    // Holds an event against its row of the table of rules.
    pub(crate) fn hold(&mut self, event: &Event) -> Option<Breach>
        requires steps { self.old.steps < 18446744073709551615 }
        requires grammar { IsEvent event.now }
        ensures follows { Follows (row_of self.old.shape event.now) self.old self.new result }
        ensures touches { is_index_flush event.now ≡ true → touches_of self.new ≤ touches_of self.old + 2 }
    {
        match event.kind {
            EventKind::Cache => self.operate(event),
            _ if event.pa < 8388608 => self.access(event),
            _ => self.pass(),
        }
    }
}

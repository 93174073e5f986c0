//! Where one mark tells that an event breaks no rule and changes no fact.
//!
//! It tells so where the facts are consistent, as those of a ledger are that began without a fact.

ghost use Rattle.std.specs.Prelude.{◌≡◌, ◌<◌, ◌%◌, true};
ghost use Rattle.access_trace.specs.Grammar.{IsEvent};
ghost use Rattle.access_trace.specs.declared.event.EventKind.TheVariants.{Cache};
ghost use Rattle.r4_shape.specs.Address.{colour, granule};
ghost use Rattle.rule_ledger.specs.Cells.{grid_of};
ghost use Rattle.rule_ledger.specs.Consistent.{IsConsistent};
ghost use Rattle.rule_ledger.specs.Events.{row_of, where_in_ram};
ghost use Rattle.rule_ledger.specs.Facts.{granules};
ghost use Rattle.rule_ledger.specs.Marks.{facts_of};
ghost use Rattle.rule_ledger.specs.Rules as rule;
ghost use Rattle.rule_ledger.specs.Steps.{Reads, Settles};

use crate::tables::Tables;
use access_trace::{Event, EventKind};

impl Tables {
    // Whether the mark of a load's copy tells that the load breaks no rule and changes no fact: a fresh copy is held, so that
    // the granule is dirty at no other colour.
    #[inline]
    fn is_settled_load(&mut self, pa: u64, va: u32) -> bool
        requires ram { pa < 8388608 }
        requires page { pa % 4096 ≡ va % 4096 }
        ensures settles { let shape = self.old.shape in IsConsistent (grid_of shape) (facts_of self.old) →
            result ≡ true → Settles (rule.cached_load (granule shape pa) (colour shape va)) self.old }
        ensures reads { Reads self.old self.new }
    {
        let mark = self.accessed_data(pa, va);
        mark.held && !mark.old
    }

    // The same of a store: its own copy is dirty, so that every other one is old.
    #[inline]
    fn is_settled_store(&mut self, pa: u64, va: u32) -> bool
        requires ram { pa < 8388608 }
        requires page { pa % 4096 ≡ va % 4096 }
        ensures settles { let shape = self.old.shape in IsConsistent (grid_of shape) (facts_of self.old) →
            result ≡ true → Settles (rule.cached_store (granule shape pa) (colour shape va)) self.old }
        ensures reads { Reads self.old self.new }
    {
        self.accessed_data(pa, va).dirty
    }

    // The same of a fetch: a fresh copy is held in the instruction cache, so that the granule is dirty nowhere.
    #[inline]
    fn is_settled_fetch(&mut self, pa: u64, va: u32) -> bool
        requires ram { pa < 8388608 }
        requires page { pa % 4096 ≡ va % 4096 }
        ensures settles { let shape = self.old.shape in IsConsistent (grid_of shape) (facts_of self.old) →
            result ≡ true → Settles (rule.cached_fetch (granule shape pa) (colour shape va)) self.old }
        ensures reads { Reads self.old self.new }
    {
        let copy = self.accessed_instruction(pa, va);
        copy.held && !copy.old
    }

    // The same of a read of memory past the caches: the granule is dirty at no colour.
    #[inline(never)]
    fn is_settled_read(&mut self, pa: u64) -> bool
        ensures settles { let shape = self.old.shape in
            result ≡ true → Settles (where_in_ram pa (rule.read_past (granules (granule shape pa) 1))) self.old }
        ensures reads { Reads self.old self.new }
    {
        if pa >= 8388608 {
            return true;
        }
        let granule = self.granule(pa);
        !self.is_dirty(granule)
    }

    // The same of a write of memory past the caches: the granule is dirty at no colour, and each copy of it is old.
    #[inline(never)]
    fn is_settled_write(&mut self, pa: u64) -> bool
        ensures settles { let shape = self.old.shape in
            result ≡ true → Settles (where_in_ram pa (rule.write_past (granules (granule shape pa) 1))) self.old }
        ensures reads { Reads self.old self.new }
    {
        if pa >= 8388608 {
            return true;
        }
        let granule = self.granule(pa);
        self.is_left(granule)
    }

    // Whether one mark tells that an event breaks no rule and changes no fact.
    #[inline(always)]
    pub(crate) fn is_settled(&mut self, event: &Event) -> bool
        requires { IsEvent event.now }
        ensures settles { let shape = self.old.shape in IsConsistent (grid_of shape) (facts_of self.old) →
            result ≡ true → Settles (row_of shape event.now) self.old }
        ensures reads { Reads self.old self.new }
        ensures no_access { event.now.kind ≡ Cache → self.new ≡ self.old }
    {
        match event.kind {
            EventKind::Load if event.cached => self.is_settled_load(event.pa, event.va),
            EventKind::Store if event.cached => self.is_settled_store(event.pa, event.va),
            EventKind::Fetch if event.cached => self.is_settled_fetch(event.pa, event.va),
            EventKind::Load | EventKind::Fetch => self.is_settled_read(event.pa),
            EventKind::Store => self.is_settled_write(event.pa),
            _ => false,
        }
    }
}

//! The ledger: what may be so of the copies that the primary caches hold, and a step of it.

ghost use Rattle.std.specs.Prelude.{◌≡◌, ◌<◌, ◌≤◌, ◌+◌, true, false, OnSome, IfNone, IfOk};
ghost use Rattle.access_trace.specs.Grammar.{IsEvent};
ghost use Rattle.rule_ledger.specs.Events.{breach_of, facts_after, is_index_flush};
ghost use Rattle.rule_ledger.specs.Facts.{no_facts};
ghost use Rattle.rule_ledger.specs.Marks.{facts_of, touches_of};
ghost use Rattle.rule_ledger.specs.Steps.{Reads};

use crate::tables::Tables;
use access_trace::{Breach, Event};
use r4_shape::Shape;
use r4_words::Memory;
use std::alloc::Global;
use std::marker::Model;

/// The ledger of a machine without a secondary cache.
#[derive(Drop)]
pub struct PcLedger {
    tables: Tables,
    // Whether all that the ledger has came from a reset by steps alone.
    from_reset: bool,
}

impl Model for PcLedger {
    ghost use Rattle.rule_ledger.specs.Marks.{Ledger};
    ghost use Rattle.rule_ledger.specs.Consistent.{IsLedger};

    ghost Value = { Ledger };

    ghost view = { λ ledger. ledger.tables };

    ghost invariant = { λ ledger. IsLedger ledger.from_reset ledger.tables };
}

impl PcLedger {
    /// The ledger without a fact.
    pub fn new(alloc: Global, shape: Shape) -> Result<PcLedger, Memory>
        requires { shape.sc ≡ false }
        ensures shape { IfOk result (λ ledger. ledger.shape ≡ shape) }
        ensures facts { IfOk result (λ ledger. facts_of ledger ≡ no_facts) }
        ensures steps { IfOk result (λ ledger. ledger.steps ≡ 0) }
    {
        let tables = Tables::new(alloc, shape)?;
        Ok(PcLedger {
            tables,
            from_reset: true,
        })
    }

    /// How often a number of the ledger's tables was read or written.
    pub fn touches(&self) -> u64
        ensures { result ≡ touches_of self.now }
    {
        self.tables.touches()
    }

    // Holds an event against its row of the table of rules, and counts it where it breaks no rule.
    #[inline(never)]
    fn hold(&mut self, event: Event) -> Option<Breach>
        requires grammar { IsEvent event }
        requires steps { self.old.steps < 18446744073709551615 }
        ensures breach { result ≡ breach_of self.old.shape (facts_of self.old) event }
        ensures facts { facts_of self.new ≡ facts_after self.old.shape (facts_of self.old) event result }
        ensures stays { OnSome result (Reads self.old self.new) }
        ensures steps { IfNone result (self.new.steps ≡ self.old.steps + 1) }
        ensures shape { self.new.shape ≡ self.old.shape }
        ensures touches { is_index_flush event ≡ true → touches_of self.new ≤ touches_of self.old + 4 }
    {
        self.tables.hold(&event)
    }

    /// Holds an event against the rules, and answers the first one that it breaks.
    #[inline(always)]
    pub fn step(&mut self, event: &Event) -> Option<Breach>
        requires grammar { IsEvent event.now }
        requires steps { self.old.steps < 18446744073709551615 }
        ensures breach { result ≡ breach_of self.old.shape (facts_of self.old) event.now }
        ensures facts { facts_of self.new ≡ facts_after self.old.shape (facts_of self.old) event.now result }
        ensures stays { OnSome result (Reads self.old self.new) }
        ensures steps { IfNone result (self.new.steps ≡ self.old.steps + 1) }
        ensures shape { self.new.shape ≡ self.old.shape }
        ensures touches { is_index_flush event.now ≡ true → touches_of self.new ≤ touches_of self.old + 4 }
    {
        if self.from_reset && self.tables.is_settled(event) {
            self.tables.count_step();
            return None;
        }
        self.hold(*event)
    }
}

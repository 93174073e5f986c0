//! The judge of a trace.

ghost use Rattle.std.specs.Prelude.{◌≡◌, ◌<◌, ◌+◌, ◌↔◌, false, IfOk, IfSome, IsNone};
ghost use Rattle.access_trace.specs.Grammar.{IsEvent};
ghost use Rattle.access_trace.specs.declared.event.Verdict.TheVariants.{Yes};
ghost use Rattle.trace_check.specs.Verdicts.{IsAmong, event_by, held, standing_at, start, verdict_by};

use crate::found::Found;
use access_trace::{Breach, Event, Verdict};
use r4_shape::Shape;
use r4_words::Memory;
use rule_ledger::PcLedger;
use std::alloc::Global;
use std::marker::Model;

/// A judge, to whom the events of a trace are shown one by one.
#[derive(Drop)]
pub struct Judge {
    ledger: PcLedger,
    events: u64,
    first: Option<Found>,
}

impl Model for Judge {
    ghost use Rattle.std.specs.Prelude.{◌≤◌, IfSome};
    ghost use Rattle.access_trace.specs.Grammar.{IsEvent};
    ghost use Rattle.trace_check.specs.Verdicts.{Judging, IsAmong, event_by};

    ghost Value = { Judging };

    ghost view = { λ judge. record { ledger = judge.ledger; events = judge.events; first = judge.first } };

    ghost invariant = { λ judge. (judge.ledger.steps ≤ judge.events) × IfSome (event_by judge.first) (λ event. IsEvent event)
        × IsAmong judge.first judge.events };
}

// What is found at an event that breaks a rule. It is made aside, since most events break none.
#[inline(never)]
fn found_at(number: u64, breach: Breach, event: Event) -> Found
    ensures { result ≡ record { number = number; breach = breach; event = event } }
{
    Found {
        number,
        breach,
        event,
    }
}

impl Judge {
    /// A judge who has seen no event.
    pub fn new(alloc: Global, shape: Shape) -> Result<Judge, Memory>
        requires { shape.sc ≡ false }
        ensures start { IfOk result (λ judge. standing_at judge ≡ start shape) }
    {
        Ok(Judge {
            ledger: PcLedger::new(alloc, shape)?,
            events: 0,
            first: None,
        })
    }

    /// The verdict on the events so far.
    #[inline]
    pub fn verdict(&self) -> Verdict
        ensures { result ≡ verdict_by self.now.first }
    {
        match &self.first {
            Some(found) => Verdict::No {
                event: found.number,
                breach: found.breach,
            },
            None => Verdict::Yes,
        }
    }

    /// The event that the verdict names.
    pub fn first(&self) -> Option<Event>
        ensures event { result ≡ event_by self.now.first }
        ensures none { IsNone result ↔ (verdict_by self.now.first ≡ Yes) }
        ensures grammar { IfSome (event_by self.now.first) (λ event. IsEvent event) }
        ensures among { IsAmong self.now.first self.now.events }
    {
        match &self.first {
            Some(found) => Some(found.event),
            None => None,
        }
    }

    /// Shows the judge one event more, and answers the verdict on all so far. A No stays.
    #[inline(always)]
    pub fn judge(&mut self, event: &Event) -> Verdict
        requires grammar { IsEvent event.now }
        requires events { self.old.events < 18446744073709551615 }
        ensures standing { standing_at self.new ≡ held (standing_at self.old) event.now }
        ensures verdict { result ≡ verdict_by self.new.first }
        ensures count { self.new.events ≡ self.old.events + 1 }
    {
        if self.first.is_none() {
            if let Some(breach) = self.ledger.step(event) {
                self.first = Some(found_at(self.events, breach, *event));
            }
        }
        self.events += 1;
        self.verdict()
    }
}

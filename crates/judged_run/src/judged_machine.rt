//! A machine and the judge of its events.

ghost use Rattle.std.specs.Prelude.{◌≡◌, ◌+◌, ◌<◌, ◌≤◌, ◌^◌, ◌↔◌, ℕ, Some, None, false, length};
ghost use Rattle.std.specs.Prelude.{IfOk, IfSome, IsNone};
ghost use Rattle.access_trace.specs.Grammar.{IsEvent};
ghost use Rattle.access_trace.specs.declared.event.Verdict.TheVariants.{Yes};
ghost use Rattle.dma_devices.specs.DiskCommands.{largest_disk};
ghost use Rattle.machine_core.specs.AddressMap.{HasNoSecondary};
ghost use Rattle.machine_core.specs.Machine.{reset_of};
ghost use Rattle.machine_core.specs.Shown.{shown_of};
ghost use Rattle.machine_core.specs.Traced.{latest_of, log_of, machine_in, tick_events};
ghost use Rattle.run_report.specs.Shown.{shown_by};
ghost use Rattle.trace_check.specs.Verdicts.{event_by, verdict_by};
ghost use Rattle.judged_run.specs.JudgedMachines as law;

use crate::judging::judge_tick;
use access_trace::{Event, Verdict};
use elf_image::Image;
use flat_ram::Prom;
use input_script::Script;
use machine_core::{Log, Machine, TickEvents};
use mips3_exec::Tick;
use r4_shape::Shape;
use r4_words::Memory;
use run_report::View;
use std::alloc::Global;
use std::marker::Model;
use trace_check::Judge;

/// A machine that is run with the judge of its events beside it.
#[derive(Drop)]
pub struct JudgedMachine {
    machine: Machine,
    judge: Judge,
}

impl Model for JudgedMachine {
    ghost use Rattle.judged_run.specs.JudgedMachines.{JudgedState, IsJudged};

    ghost Value = { JudgedState };

    ghost view = { λ judged. record { machine = judged.machine; judge = judged.judge } };

    ghost invariant = { λ judged. IsJudged judged.machine judged.judge };
}

// Makes one tick of a machine, and shows the judge its events. After a halt it changes nothing.
#[inline(always)]
fn tick_judged(machine: &mut Machine, judge: &mut Judge) -> Tick
    requires ticks { machine.old.cpu.halt ≡ None → machine.old.cpu.ticks < 4294967295 }
    requires counted { machine.old.cpu.halt ≡ None →
        law.IsCounted (record { machine = machine.old; judge = judge.old }) }
    requires calm { machine.old.span_left ≡ 0 }
    requires alone { HasNoSecondary (machine_in machine.old).bus }
    ensures ticked { law.Ticked (record { machine = machine.old; judge = judge.old })
        (record { machine = machine.new; judge = judge.new }) result }
    ensures log { machine.old.cpu.halt ≡ None → machine.new.memory.log ≡ log_of (machine_in machine.old) }
    ensures events { machine.old.cpu.halt ≡ None →
        latest_of machine.new ≡ tick_events machine.old.span_left (machine_in machine.old) }
    ensures stands_still { (code : ℕ) → machine.old.cpu.halt ≡ Some code →
        (machine.new ≡ machine.old) × (judge.new ≡ judge.old) × (result ≡ Tick.Halted code) }
{
    if let Some(code) = machine.cpu.halt {
        return Tick::Halted(code);
    }
    let ticks = machine.cpu.ticks;
    let answer = machine.advance();
    judge_tick(judge, ticks, 0, &machine.memory.log);
    answer
}

impl JudgedMachine {
    /// A machine at reset with its judge: no tick was made, and no event was judged.
    pub fn new(
        alloc: Global,
        shape: Shape,
        prom: &Prom,
        image: &Image<'_>,
        disk: Vec<u8>,
        script: Script,
    ) -> Result<JudgedMachine, Memory>
        requires primary { shape.sc ≡ false }
        requires disk { length disk.items ≤ largest_disk }
        ensures begins { IfOk result (law.Begins shape (reset_of shape prom.now image.now disk.items script)) }
        ensures keeps { IfOk result (λ judged. law.IsJudged judged.machine judged.judge) }
    {
        let judge = Judge::new(alloc, shape)?;
        let machine = Machine::new(alloc, shape, prom, image, disk, script)?;
        Ok(JudgedMachine { machine, judge })
    }

    /// Makes one tick, and judges its events. After a halt it changes nothing, and answers the halt code again.
    #[inline(always)]
    pub fn tick(&mut self) -> Tick
        requires ticks { self.old.machine.cpu.halt ≡ None → self.old.machine.cpu.ticks < 4294967295 }
        ensures ticked { law.Ticked self.old self.new result }
        ensures log { self.old.machine.cpu.halt ≡ None → self.new.machine.memory.log ≡ log_of (machine_in self.old.machine) }
        ensures events { self.old.machine.cpu.halt ≡ None → latest_of self.new.machine ≡
            tick_events self.old.machine.span_left (machine_in self.old.machine) }
        ensures stands_still { (code : ℕ) → self.old.machine.cpu.halt ≡ Some code →
            (self.new ≡ self.old) × (result ≡ Tick.Halted code) }
    {
        tick_judged(&mut self.machine, &mut self.judge)
    }

    /// Makes so many ticks, up to one that halts, and judges the events of each.
    pub fn run(&mut self, steps: u32)
        requires ticks { self.old.machine.cpu.ticks + steps < 2 ^ 32 }
        ensures run { law.HasRun steps self.old self.new }
    {
        for step in 0..steps {
            match self.tick() {
                Tick::Ran | Tick::Trapped(_) => {}
                Tick::Halted(_) => return,
            }
        }
    }

    /// The machine itself, with what it and its judge keep.
    #[inline]
    pub fn machine(&self) -> &Machine
        ensures machine { result.now ≡ self.now.machine }
        ensures keeps { law.IsJudged self.now.machine self.now.judge }
    {
        &self.machine
    }

    /// How many ticks were made.
    #[inline]
    pub fn ticks(&self) -> u32
        ensures { result ≡ self.now.machine.cpu.ticks }
    {
        self.machine.cpu.ticks
    }

    /// For how many ticks the present span goes on; 0 in a calm state.
    #[inline]
    pub fn span(&self) -> u32
        ensures { result ≡ self.now.machine.span_left }
    {
        self.machine.span()
    }

    /// What the last tick asked of the bus, with the replies.
    #[inline]
    pub fn log(&self) -> &Log
        ensures { result.now ≡ self.now.machine.memory.log }
    {
        &self.machine.memory.log
    }

    /// The halt code, once the machine has halted.
    #[inline]
    pub fn halted(&self) -> Option<u32>
        ensures { result ≡ self.now.machine.cpu.halt }
    {
        self.machine.cpu.halt
    }

    /// The events of the last tick, also of a run, made from what it asked. Each is one of the trace's grammar.
    pub fn events(&self) -> TickEvents
        ensures events { result ≡ latest_of self.now.machine }
    {
        self.machine.events()
    }

    /// The verdict on the events so far.
    pub fn verdict(&self) -> Verdict
        ensures { result ≡ verdict_by self.now.judge.first }
    {
        self.judge.verdict()
    }

    /// The event that the verdict names.
    pub fn first(&self) -> Option<Event>
        ensures event { result ≡ event_by self.now.judge.first }
        ensures none { IsNone result ↔ (verdict_by self.now.judge.first ≡ Yes) }
        ensures grammar { IfSome (event_by self.now.judge.first) (λ event. IsEvent event) }
    {
        self.judge.first()
    }

    /// What the machine shows.
    pub fn view(&self) -> View<'_>
        ensures shown { shown_by result ≡ shown_of (machine_in self.now.machine) }
    {
        self.machine.view()
    }
}

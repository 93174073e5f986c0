//! A run whose events are written as they come, and then its report and the verdict.

ghost use Rattle.std.specs.Prelude.{◌≡◌, ◌+◌, ◌<◌, ◌^◌, IfSome, OnOk, OnErr, None, true, false};
ghost use Rattle.access_trace.specs.Grammar.{IsEvent};
ghost use Rattle.access_trace.specs.Traces.{events_text};
ghost use Rattle.machine_core.specs.TickEvents.{events_of, listed};
ghost use Rattle.machine_core.specs.Traced.{machine_in, run_events, tick_events};
ghost use Rattle.r4_ports.specs.Told.{Appended, AppendedPrefix, HasCause};
ghost use Rattle.r4_ports.specs.Writing.{Writes, stand};
ghost use Rattle.run_report.specs.Verdict.{verdict_text};
ghost use Rattle.trace_check.specs.Verdicts.{verdict_by, event_by};
ghost use Rattle.judged_run.specs.JudgedMachines.{HasRun, HasRunWithin, Ticked, events_in};
ghost use Rattle.judged_run.specs.RunTexts as law;

use crate::judged_machine::JudgedMachine;
use access_trace::Event;
use machine_core::{Log, beat_of_log, event_of_log, shows_fetch};
use mips3_exec::Tick;
use r4_ports::{Pending, Sink, SinkFault, finish};
use run_report::{put_end, put_event, put_report, put_verdict};

// Writes the line of an event, where there is one.
#[inline(always)]
fn put_if<K: Sink>(event: Option<Event>, out: &mut K, pending: &mut Pending)
    requires { IfSome event IsEvent }
    ensures writes { Writes (stand K.written K.faults out.old pending.old)
        (stand K.written K.faults out.new pending.new) (events_text (listed event)) }
{
    if let Some(event) = event {
        put_event(&event, out, pending);
    }
}

// Writes the events of a tick.
#[inline(always)]
fn put_tick_events<K: Sink>(tick: u32, span: u32, log: &Log, out: &mut K, pending: &mut Pending)
    ensures writes { Writes (stand K.written K.faults out.old pending.old)
        (stand K.written K.faults out.new pending.new) (events_text (events_of tick span log.now)) }
{
    put_if(beat_of_log(tick, log.beat()), out, pending);
    let shown = shows_fetch(span, log);
    put_if(event_of_log(tick, shown, log.fetch()), out, pending);
    put_if(event_of_log(tick, span == 0, log.access()), out, pending);
}

// Makes one tick, and writes its events.
#[tactic(auto, using(crate::proofs::Written::writes_halted))]
fn put_tick<K: Sink>(judged: &mut JudgedMachine, out: &mut K, pending: &mut Pending) -> Tick
    requires ticks { judged.old.machine.cpu.halt ≡ None → judged.old.machine.cpu.ticks < 4294967295 }
    ensures ticked { Ticked judged.old judged.new result }
    ensures writes { Writes (stand K.written K.faults out.old pending.old)
        (stand K.written K.faults out.new pending.new)
        (events_text (tick_events judged.old.machine.span_left (machine_in judged.old.machine))) }
{
    if let Some(code) = judged.halted() {
        return Tick::Halted(code);
    }
    let (ticks, span) = (judged.ticks(), judged.span());
    let answer = judged.tick();
    put_tick_events(ticks, span, judged.log(), out, pending);
    answer
}

// Makes so many ticks, up to one that halts, and writes the events of each, up to a write that fails.
fn put_run<K: Sink>(judged: &mut JudgedMachine, steps: u32, out: &mut K, pending: &mut Pending)
    requires ticks { judged.old.machine.cpu.ticks + steps < 2 ^ 32 }
    ensures writes { Writes (stand K.written K.faults out.old pending.old)
        (stand K.written K.faults out.new pending.new)
        (events_text (events_in steps judged.old)) }
    ensures whole { pending.new.failed ≡ false → HasRun steps judged.old judged.new }
    ensures within { HasRunWithin steps judged.old judged.new }
{
    for step in 0..steps {
        if pending.failed {
            return;
        }
        match put_tick(judged, out, pending) {
            Tick::Ran | Tick::Trapped(_) => {}
            Tick::Halted(_) => return,
        }
    }
}

// Writes the verdict on the events of a judged machine, unless a write failed before.
fn put_verdict_on<K: Sink>(judged: &JudgedMachine, out: &mut K, pending: &mut Pending)
    ensures writes { Writes (stand K.written K.faults out.old pending.old)
        (stand K.written K.faults out.new pending.new)
        (verdict_text (verdict_by judged.now.judge.first) (event_by judged.now.judge.first)) }
{
    put_verdict(&judged.verdict(), &judged.first(), out, pending);
}

// Writes the report of a judged machine and the verdict on it, unless a write failed before.
fn put_checked<K: Sink>(judged: &JudgedMachine, out: &mut K, pending: &mut Pending)
    ensures writes { Writes (stand K.written K.faults out.old pending.old)
        (stand K.written K.faults out.new pending.new)
        (law.checked_text (machine_in judged.now.machine) judged.now.judge.first) }
{
    put_report(&judged.view(), out, pending);
    put_verdict_on(judged, out, pending);
}

/// Writes the report of a judged machine and the verdict on it. After Ok it has gone out; where a write fails, a prefix of it was written.
pub fn write_checked<K: Sink>(judged: &JudgedMachine, out: &mut K) -> Result<(), SinkFault>
    ensures ok { OnOk result (Appended (K.written out.old) (K.written out.new)
        (law.checked_text (machine_in judged.now.machine) judged.now.judge.first)) }
    ensures flushed { OnOk result (K.is_flushed out.new ≡ true) }
    ensures err { OnErr result (AppendedPrefix (K.written out.old) (K.written out.new)
        (law.checked_text (machine_in judged.now.machine) judged.now.judge.first)) }
    ensures cause { HasCause (K.faults out.old) (K.faults out.new) result }
{
    let mut pending = Pending::new();
    put_checked(judged, out, &mut pending);
    finish(out, &mut pending)
}

// Makes so many ticks, up to one that halts, and writes the trace, the report and the verdict, up to a write that fails.
fn put_traced<K: Sink>(judged: &mut JudgedMachine, steps: u32, out: &mut K, pending: &mut Pending)
    requires ticks { judged.old.machine.cpu.ticks + steps < 2 ^ 32 }
    ensures writes { Writes (stand K.written K.faults out.old pending.old)
        (stand K.written K.faults out.new pending.new) (law.traced_text steps judged.old) }
    ensures whole { pending.new.failed ≡ false → HasRun steps judged.old judged.new }
    ensures within { HasRunWithin steps judged.old judged.new }
{
    put_run(judged, steps, out, pending);
    if pending.failed {
        return;
    }
    put_end(out, pending);
    put_checked(judged, out, pending);
}

// Makes such a run and writes it. After Ok all has gone out.
fn write_run<K: Sink>(judged: &mut JudgedMachine, steps: u32, out: &mut K) -> Result<(), SinkFault>
    requires ticks { judged.old.machine.cpu.ticks + steps < 2 ^ 32 }
    ensures ok { OnOk result (Appended (K.written out.old) (K.written out.new) (law.traced_text steps judged.old)) }
    ensures flushed { OnOk result (K.is_flushed out.new ≡ true) }
    ensures err { OnErr result
        (AppendedPrefix (K.written out.old) (K.written out.new) (law.traced_text steps judged.old)) }
    ensures cause { HasCause (K.faults out.old) (K.faults out.new) result }
    ensures whole { OnOk result (HasRun steps judged.old judged.new) }
    ensures within { HasRunWithin steps judged.old judged.new }
{
    let mut pending = Pending::new();
    put_traced(judged, steps, out, &mut pending);
    finish(out, &mut pending)
}

/// Makes so many ticks, up to one that halts. The trace is written while they are made, and then the report and the verdict. After
/// Ok all has gone out; where a write fails, a prefix of it was written, and no further tick is made. Also then the ticks
/// that were made are a run, and stay within the bound.
pub fn write_traced<K: Sink>(
    judged: &mut JudgedMachine,
    steps: u32,
    out: &mut K,
) -> Result<(), SinkFault>
    requires ticks { judged.old.machine.cpu.ticks + steps < 2 ^ 32 }
    ensures ok { OnOk result (Appended (K.written out.old) (K.written out.new) (law.traced_text steps judged.old)) }
    ensures flushed { OnOk result (K.is_flushed out.new ≡ true) }
    ensures err { OnErr result
        (AppendedPrefix (K.written out.old) (K.written out.new) (law.traced_text steps judged.old)) }
    ensures cause { HasCause (K.faults out.old) (K.faults out.new) result }
    ensures whole { OnOk result (HasRun steps judged.old judged.new) }
    ensures within { HasRunWithin steps judged.old judged.new }
    ensures judged_again { OnOk result (law.IsJudgedAgain steps judged.old) }
{
    write_run(judged, steps, out)
}

//! The lines of a trace and of a verdict, written to a sink.

ghost use Rattle.std.specs.Prelude.{◌≡◌, ◌≤◌, ◌++◌, [], ◌∷◌, ◌↔◌, true, length, IsNone, IfSome, OnOk, OnErr};
ghost use Rattle.access_trace.specs.Grammar.{IsEvent};
ghost use Rattle.access_trace.specs.Traces.{newline, end_line};
ghost use Rattle.r4_ports.specs.Told.{Appended, AppendedPrefix, HasCause};
ghost use Rattle.r4_ports.specs.Writing.{Writes, stand};
ghost use Rattle.run_report.specs.Verdict as law;
ghost use Rattle.run_report.specs.Verdict.{verdict_text};

use access_trace::{Breach, Event, Verdict, append_event};
use r4_ports::{Pending, Sink, SinkFault, finish, write_line};
use r4_words::{Line, put_dec, put_text};

// A line of these bytes.
fn fixed_line(text: &[u8]) -> Line
    requires { length text.now ≤ 128 }
    ensures text { result.items ≡ text.now }
{
    let mut line = Line::new();
    put_text(text, &mut line);
    line
}

// A breach by its name, in small letters.
fn breach_name(breach: Breach) -> &'static [u8]
    ensures name { result.now ≡ law.breach_name breach }
    ensures short { length result.now ≤ 7 }
{
    match breach {
        Breach::Forge => b"forge",
        Breach::Peek => b"peek",
        Breach::Unquiet => b"unquiet",
        Breach::Old => b"old",
        Breach::Owed => b"owed",
        Breach::Lost => b"lost",
    }
}

// The number of an event and the breach, before the event's line.
#[tactic(auto, unfolding(crate::specs::Verdict::no_text))]
fn no_line(number: u64, breach: Breach) -> Line
    ensures text { result.items ≡ law.no_text number breach }
{
    let mut line = Line::new();
    put_text(b"verdict no ", &mut line);
    put_dec(number, &mut line);
    put_text(b" ", &mut line);
    put_text(breach_name(breach), &mut line);
    put_text(b" ", &mut line);
    line
}

// Writes the line of an event where it may not fit behind what is pending.
#[inline(never)]
fn put_across<K: Sink>(event: &Event, out: &mut K, pending: &mut Pending)
    requires { IsEvent event.now }
    ensures writes { Writes (stand K.written K.faults out.old pending.old)
        (stand K.written K.faults out.new pending.new) (law.event_line event.now) }
{
    let mut line = Line::new();
    append_event(event, &mut line);
    write_line(&line, out, pending);
}

/// Writes the line of an event of the grammar, unless a write failed before. Where there is room for it behind what is pending, it
/// is made there.
#[inline(never)]
pub fn put_event<K: Sink>(event: &Event, out: &mut K, pending: &mut Pending)
    requires { IsEvent event.now }
    ensures writes { Writes (stand K.written K.faults out.old pending.old)
        (stand K.written K.faults out.new pending.new) (law.event_line event.now) }
{
    if pending.piece.len() <= 70 {
        append_event(event, &mut pending.piece);
        return;
    }
    put_across(event, out, pending);
}

/// Writes the last line of a trace, unless a write failed before.
pub fn put_end<K: Sink>(out: &mut K, pending: &mut Pending)
    ensures writes { Writes (stand K.written K.faults out.old pending.old)
        (stand K.written K.faults out.new pending.new) (end_line ++ newline ∷ []) }
{
    write_line(&fixed_line(b"end\n"), out, pending);
}

// Writes a verdict that is no.
fn put_no<K: Sink>(number: u64, breach: Breach, first: &Event, out: &mut K, pending: &mut Pending)
    requires { IsEvent first.now }
    ensures writes { Writes (stand K.written K.faults out.old pending.old)
        (stand K.written K.faults out.new pending.new)
        (law.no_text number breach ++ law.event_line first.now) }
{
    write_line(&no_line(number, breach), out, pending);
    put_event(first, out, pending);
}

/// Writes a verdict with the first event that breaks a rule, unless a write failed before.
#[tactic(auto, unfolding(crate::specs::Verdict::verdict_text))]
pub fn put_verdict<K: Sink>(
    verdict: &Verdict,
    first: &Option<Event>,
    out: &mut K,
    pending: &mut Pending,
)
    requires first { IsNone first.now ↔ (verdict.now ≡ Verdict.Yes) }
    requires grammar { IfSome first.now IsEvent }
    ensures writes { Writes (stand K.written K.faults out.old pending.old)
        (stand K.written K.faults out.new pending.new) (verdict_text verdict.now first.now) }
{
    match (verdict, first) {
        (Verdict::No { event, breach }, Some(first)) => put_no(
            *event, *breach, first, out, pending,
        ),
        _ => write_line(&fixed_line(b"verdict yes\n"), out, pending),
    }
}

/// Writes a verdict with the first event that breaks a rule. After Ok it has gone out; where a write fails, a prefix of it was
/// written.
pub fn write_verdict<K: Sink>(
    verdict: &Verdict,
    first: &Option<Event>,
    out: &mut K,
) -> Result<(), SinkFault>
    requires first { IsNone first.now ↔ (verdict.now ≡ Verdict.Yes) }
    requires grammar { IfSome first.now IsEvent }
    ensures ok { OnOk result (Appended (K.written out.old) (K.written out.new) (verdict_text verdict.now first.now)) }
    ensures flushed { OnOk result (K.is_flushed out.new ≡ true) }
    ensures err { OnErr result
        (AppendedPrefix (K.written out.old) (K.written out.new) (verdict_text verdict.now first.now)) }
    ensures cause { HasCause (K.faults out.old) (K.faults out.new) result }
{
    let mut pending = Pending::new();
    put_verdict(verdict, first, out, &mut pending);
    finish(out, &mut pending)
}

//! How the program ended.

ghost use Rattle.std.specs.Prelude.{◌≡◌, ◌≢◌, ◌≤◌, ◌+◌, ◌++◌, true, length, OnOk, OnErr};
ghost use Rattle.arrayvec.specs.ArrayVec.{array_vec_len};
ghost use Rattle.r4_ports.specs.Told.{Appended, AppendedPrefix, HasCause, Rose};
ghost use Rattle.r4k_top.specs.StatusText as law;

use access_trace::Breach;
use elf_image::ImageRule;
use input_script::ScriptWhy;
use mips_text::AsmWhy;
use r4_ports::{Sink, SinkFault, write_all};
use r4_words::{Line, Memory, put_dec, put_text};

/// How the program ended.
#[derive(Clone, Copy)]
pub enum Status {
    /// The job is complete.
    Done,
    /// The job is complete, and the verdict is no: the first event that breaks a rule, numbered from 0, and the rule.
    Breach { event: u64, breach: Breach },
    /// The words are no command.
    Usage,
    /// A file could not be read.
    ReadFault,
    /// The output could not be written.
    WriteFault,
    /// The image breaks this rule, at this offset in its file; it is the first rule that it breaks.
    BadImage { rule: ImageRule, offset: u32 },
    /// The script is refused: its first bad line, numbered from 1, and the first reason that holds for it.
    BadScript { line: u32, why: ScriptWhy },
    /// The source is refused: its first bad line, numbered from 1, and the first reason that holds for it.
    BadSource { line: u32, why: AsmWhy },
    /// There was not enough memory.
    Memory,
    /// The trace has this first line outside its grammar, numbered from 1; or it lacks its end, behind its last line.
    BadTrace { line: u32 },
    /// A file has more bytes than its limit.
    TooLong,
}

impl From<Memory> for Status {
    ghost use Rattle.std.specs.Prelude.{◌≡◌};
    ghost use Rattle.r4k_top.specs.declared.statuses.Status.TheVariants.{Memory};

    ghost from_gives = { λ _ status. status ≡ Memory };

    fn from(_: Memory) -> Self {
        Status::Memory
    }
}

/// The number of a status, with which the program ends.
pub fn status_number(status: &Status) -> u8
    ensures number { result ≡ law.number_of status.now }
{
    match status {
        Status::Done => 0,
        Status::Breach { .. } => 1,
        Status::Usage => 2,
        Status::ReadFault => 3,
        Status::WriteFault => 4,
        Status::BadImage { .. } => 5,
        Status::BadScript { .. } => 6,
        Status::BadSource { .. } => 7,
        Status::Memory => 8,
        Status::BadTrace { .. } => 9,
        Status::TooLong => 10,
    }
}

// The name of a rule.
fn rule_name(rule: ImageRule) -> &'static [u8]
    ensures name { result.now ≡ law.rule_name rule }
    ensures short { length result.now ≤ 7 }
{
    match rule {
        ImageRule::Short => b"Short",
        ImageRule::Magic => b"Magic",
        ImageRule::Class => b"Class",
        ImageRule::Machine => b"Machine",
        ImageRule::Kind => b"Kind",
        ImageRule::Table => b"Table",
        ImageRule::Range => b"Range",
        ImageRule::Entry => b"Entry",
    }
}

// The name of a script's reason.
fn script_why_name(why: ScriptWhy) -> &'static [u8]
    ensures name { result.now ≡ law.script_why_name why }
    ensures short { length result.now ≤ 6 }
{
    match why {
        ScriptWhy::Line => b"Line",
        ScriptWhy::Number => b"Number",
        ScriptWhy::Order => b"Order",
    }
}

// The name of a source's reason.
fn why_name(why: AsmWhy) -> &'static [u8]
    ensures name { result.now ≡ law.why_name why }
    ensures short { length result.now ≤ 7 }
{
    match why {
        AsmWhy::Unknown => b"Unknown",
        AsmWhy::Operand => b"Operand",
        AsmWhy::Range => b"Range",
        AsmWhy::Twice => b"Twice",
        AsmWhy::NoLabel => b"NoLabel",
        AsmWhy::Align => b"Align",
    }
}

// The name of a breach.
fn breach_name(breach: Breach) -> &'static [u8]
    ensures name { result.now ≡ law.breach_name breach }
    ensures short { length result.now ≤ 7 }
{
    match breach {
        Breach::Forge => b"Forge",
        Breach::Peek => b"Peek",
        Breach::Unquiet => b"Unquiet",
        Breach::Old => b"Old",
        Breach::Owed => b"Owed",
        Breach::Lost => b"Lost",
    }
}

// The line of Breach.
fn breach_line(event: u64, breach: Breach) -> Line
    ensures text { result.items ≡ law.breach_line event breach }
{
    let mut line = Line::new();
    put_text(b"Breach ", &mut line);
    put_dec(event, &mut line);
    put_text(b" ", &mut line);
    put_text(breach_name(breach), &mut line);
    put_text(b"\n", &mut line);
    line
}

// The line of BadTrace.
fn bad_trace_line(number: u32) -> Line
    ensures text { result.items ≡ law.bad_trace_line number }
{
    let mut line = Line::new();
    put_text(b"BadTrace ", &mut line);
    put_dec(u64::from(number), &mut line);
    put_text(b"\n", &mut line);
    line
}

// The line of BadImage.
fn bad_image_line(rule: ImageRule, offset: u32) -> Line
    ensures text { result.items ≡ law.bad_image_line rule offset }
{
    let mut line = Line::new();
    put_text(b"BadImage ", &mut line);
    put_text(rule_name(rule), &mut line);
    put_text(b" ", &mut line);
    put_dec(u64::from(offset), &mut line);
    put_text(b"\n", &mut line);
    line
}

// The line of BadScript.
fn bad_script_line(number: u32, why: ScriptWhy) -> Line
    ensures text { result.items ≡ law.bad_script_line number why }
{
    let mut line = Line::new();
    put_text(b"BadScript ", &mut line);
    put_dec(u64::from(number), &mut line);
    put_text(b" ", &mut line);
    put_text(script_why_name(why), &mut line);
    put_text(b"\n", &mut line);
    line
}

// The line of BadSource.
fn bad_source_line(number: u32, why: AsmWhy) -> Line
    ensures text { result.items ≡ law.bad_source_line number why }
{
    let mut line = Line::new();
    put_text(b"BadSource ", &mut line);
    put_dec(u64::from(number), &mut line);
    put_text(b" ", &mut line);
    put_text(why_name(why), &mut line);
    put_text(b"\n", &mut line);
    line
}

// A line of this text.
fn line_of(text: &[u8]) -> Line
    requires { length text.now ≤ 128 }
    ensures text { result.items ≡ text.now }
{
    let mut line = Line::new();
    put_text(text, &mut line);
    line
}

// The line of a status.
fn status_line(status: &Status) -> Line
    ensures text { result.items ≡ law.status_line status.now }
{
    match status {
        Status::Done => line_of(b"Done\n"),
        Status::Breach { event, breach } => breach_line(*event, *breach),
        Status::Usage => line_of(b"Usage\n"),
        Status::ReadFault => line_of(b"ReadFault\n"),
        Status::WriteFault => line_of(b"WriteFault\n"),
        Status::BadImage { rule, offset } => bad_image_line(*rule, *offset),
        Status::BadScript { line, why } => bad_script_line(*line, *why),
        Status::BadSource { line, why } => bad_source_line(*line, *why),
        Status::Memory => line_of(b"Memory\n"),
        Status::BadTrace { line } => bad_trace_line(*line),
        Status::TooLong => line_of(b"TooLong\n"),
    }
}

/// Writes the line of a status: its name, then each field after a blank. After Ok it has gone out; where a write fails, a
/// prefix was written.
pub fn write_status<K: Sink>(status: &Status, out: &mut K) -> Result<(), SinkFault>
    ensures ok { OnOk result (Appended (K.written out.old) (K.written out.new) (law.status_line status.now)) }
    ensures flushed { OnOk result (K.is_flushed out.new ≡ true) }
    ensures err { OnErr result (AppendedPrefix (K.written out.old) (K.written out.new) (law.status_line status.now)) }
    ensures cause { HasCause (K.faults out.old) (K.faults out.new) result }
{
    let line = status_line(status);
    write_all(line.as_slice(), out)
}

/// What the program does with its answer: nothing is written of Done, and of every other status its line, whatever comes
/// of that write; without a fault the line has gone out. The result is the number with which the program ends.
pub fn report_status<K: Sink>(status: &Status, complaints: &mut K) -> u8
    ensures number { result ≡ law.number_of status.now }
    ensures silent { status.now ≡ Status.Done → complaints.new ≡ complaints.old }
    ensures prefix { AppendedPrefix (K.written complaints.old) (K.written complaints.new)
        (law.complaint_of status.now) }
    ensures whole { ¬ Rose (K.faults complaints.old) (K.faults complaints.new) →
        Appended (K.written complaints.old) (K.written complaints.new) (law.complaint_of status.now) }
    ensures flushed { status.now ≢ Status.Done → ¬ Rose (K.faults complaints.old) (K.faults complaints.new) →
        K.is_flushed complaints.new ≡ true }
{
    match status {
        Status::Done => {}
        other => {
            let _ = write_status(other, complaints);
        }
    }
    status_number(status)
}

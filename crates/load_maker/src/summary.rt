//! The line that is told of the run of such a program.

ghost use Rattle.std.specs.Prelude.{◌≡◌, ◌≤◌, length, true, OnOk, OnErr};
ghost use Rattle.r4_ports.specs.Told.{Appended, AppendedPrefix, HasCause};
ghost use Rattle.load_maker.specs.Summary as law;

use access_trace::Verdict;
use r4_ports::{Sink, SinkFault, write_all};
use r4_words::{Line, put_dec, put_hex, put_text};

/// What is told of the run of such a program.
#[derive(Clone, Copy)]
pub struct Summary {
    /// How many words the program has.
    pub words: u32,
    /// How many ticks were made.
    pub ticks: u32,
    /// The halt code, where the machine halted.
    pub halt: Option<u32>,
    /// The verdict on the run.
    pub verdict: Verdict,
}

// The word for a verdict.
fn verdict_word(verdict: Verdict) -> &'static [u8]
    ensures word { result.now ≡ law.verdict_word verdict }
    ensures short { length result.now ≤ 3 }
{
    match verdict {
        Verdict::Yes => b"yes",
        Verdict::No { .. } => b"no",
    }
}

// The halt code, zero where the machine did not halt.
fn halt_code(halt: Option<u32>) -> u32
    ensures { result ≡ law.halt_code halt }
{
    match halt {
        Some(code) => code,
        None => 0,
    }
}

// The line of a summary.
#[tactic(auto, unfolding(crate::specs::Summary::summary_text))]
fn summary_line(summary: &Summary) -> Line
    ensures { result.items ≡ law.summary_text summary.now }
{
    let mut line = Line::new();
    put_text(b"words ", &mut line);
    put_dec(u64::from(summary.words), &mut line);
    put_text(b" ticks ", &mut line);
    put_dec(u64::from(summary.ticks), &mut line);
    put_text(b" halt ", &mut line);
    put_hex(u64::from(halt_code(summary.halt)), 8, &mut line);
    put_text(b" ", &mut line);
    put_text(verdict_word(summary.verdict), &mut line);
    put_text(b"\n", &mut line);
    line
}

/// Writes a summary. After Ok it has gone out; where a write fails, a prefix of it was written.
pub fn write_summary<K: Sink>(summary: &Summary, out: &mut K) -> Result<(), SinkFault>
    ensures ok { OnOk result (Appended (K.written out.old) (K.written out.new) (law.summary_text summary.now)) }
    ensures flushed { OnOk result (K.is_flushed out.new ≡ true) }
    ensures err { OnErr result (AppendedPrefix (K.written out.old) (K.written out.new) (law.summary_text summary.now)) }
    ensures cause { HasCause (K.faults out.old) (K.faults out.new) result }
{
    let line = summary_line(summary);
    write_all(line.as_slice(), out)
}

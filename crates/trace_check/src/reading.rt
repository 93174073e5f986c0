//! The judge of a trace that is read.

ghost use Rattle.std.specs.Prelude.{◌≡◌, ◌≤◌, length, IfOk, IfErr, false};
ghost use Rattle.access_trace.specs.Faults.{IsFaultOf};
ghost use Rattle.access_trace.specs.Traces.{trace_of};
ghost use Rattle.trace_check.specs.Verdicts.{standing_at, start};
ghost use Rattle.trace_check.specs.JudgedTraces as law;

use crate::judging::Judge;
use access_trace::{TraceFault, TraceReader};
use r4_shape::Shape;
use std::alloc::Global;

// A judge who has seen no event.
fn new_judge(alloc: Global, shape: Shape) -> Result<Judge, TraceFault>
    requires { shape.sc ≡ false }
    ensures start { IfOk result (λ judge. standing_at judge ≡ start shape) }
    ensures fault { IfErr result (λ fault. fault ≡ TraceFault.Memory) }
{
    match Judge::new(alloc, shape) {
        Ok(judge) => Ok(judge),
        Err(_) => Err(TraceFault::Memory),
    }
}

/// The judge of all events of a trace's text, on a shape; or its first bad line. Each event is read as it is judged, and none is
/// kept.
#[tactic(auto, using(crate::proofs::Read::judged_more, crate::proofs::Read::bad_line))]
pub fn judge_text(alloc: Global, shape: Shape, text: &[u8]) -> Result<Judge, TraceFault>
    requires primary { shape.sc ≡ false }
    requires short { length text.now ≤ 4294967294 }
    ensures judged { IfOk result (law.HasJudged shape (trace_of text.now)) }
    ensures fault { IfErr result (IsFaultOf (trace_of text.now)) }
{
    let mut judge = new_judge(alloc, shape)?;
    let mut reader = TraceReader::new(text);
    while let Some(event) = reader.next_event()? {
        let _ = judge.judge(&event);
    }
    Ok(judge)
}

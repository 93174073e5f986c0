//! What a run tells.

/// What a run tells, beside the disk that it puts.
#[derive(Clone, Copy)]
pub enum Telling {
    /// Its report.
    Report,
    /// Its report, and the verdict on the accesses that it made.
    Verdict,
    /// Each of these accesses, its report, and the verdict.
    Trace,
}

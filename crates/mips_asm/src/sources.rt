//! The lines of a source.

ghost use Rattle.std.specs.Prelude.{◌≡◌, ◌<◌, ◌≤◌, ◌+◌, ◌∷◌, [], length, take, drop};
ghost use Rattle.std.specs.List.{prefix_len};
ghost use Rattle.mips_asm.specs.Layout.{lines_of};
ghost use Rattle.mips_asm.specs.LabelsOf.{in_line};

/// A line of a source, and what follows it.
#[derive(Clone, Copy)]
pub struct Split<'a> {
    pub line: &'a [u8],
    pub rest: &'a [u8],
}

/// The index of the first newline, or the length where there is none.
fn line_length(source: &[u8]) -> usize
    ensures { result ≡ prefix_len in_line source.now }
{
    source.iter().take_while(|code| **code != b'\n').count()
}

/// What follows an index.
fn rest_from(source: &[u8], at: usize) -> &[u8]
    requires { at ≤ length source.now }
    ensures { result.now ≡ drop at source.now }
{
    &source[at..]
}

/// What stands before an index.
fn head_to(source: &[u8], at: usize) -> &[u8]
    requires { at ≤ length source.now }
    ensures { result.now ≡ take at source.now }
{
    &source[..at]
}

/// The first line of a source that is not empty.
#[tactic(auto, using(crate::proofs::LineList::lines_of_last, crate::proofs::LineList::lines_of_more))]
pub fn split_line(source: &[u8]) -> Split
    requires { 0 < length source.now }
    ensures lines { lines_of source.now ≡ result.line.now ∷ lines_of result.rest.now }
    ensures shorter { length result.rest.now < length source.now }
    ensures short { length result.line.now ≤ length source.now }
{
    let size = line_length(source);
    if size < source.len() {
        Split {
            line: head_to(source, size),
            rest: rest_from(source, size + 1),
        }
    } else {
        Split {
            line: source,
            rest: &[],
        }
    }
}

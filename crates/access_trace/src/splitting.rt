//! A text cut at a byte.

ghost use Rattle.std.specs.Prelude.{◌≡◌, ◌==◌, ◌<◌, ◌∷◌, [], length, position, IfSome, IfNone};
ghost use Rattle.access_trace.specs.Pieces.{pieces};

// The index of the first such byte.
fn place_of(text: &[u8], byte: u8) -> Option<usize>
    ensures { result ≡ position (λ code. code == byte) text.now }
{
    text.iter().position(|code| *code == byte)
}

/// What stands before the first such byte and what stands after it. None where no such byte stands in the text.
#[tactic(auto, using(crate::proofs::Splits::split_at_first, crate::proofs::Splits::split_nowhere))]
pub fn split_once(text: &[u8], byte: u8) -> Option<(&[u8], &[u8])>
    ensures parts { IfSome result (λ cut. pieces byte text.now ≡ cut.0.now ∷ pieces byte cut.1.now) }
    ensures shorter { IfSome result (λ cut. length cut.1.now < length text.now) }
    ensures whole { IfNone result (pieces byte text.now ≡ text.now ∷ []) }
{
    match place_of(text, byte) {
        Some(at) => Some((&text[..at], &text[at + 1..])),
        None => None,
    }
}

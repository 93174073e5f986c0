//! The lines of a text.

ghost use Rattle.std.specs.Prelude.{◌≡◌, ◌<◌, ◌∷◌, length};
ghost use Rattle.access_trace.specs.Traces.{lines_of};

use crate::splitting::split_once;

/// The first line of a text that is not empty, and what follows the newline that ends it.
#[tactic(auto, using(crate::proofs::FirstLine::lines_of_last))]
pub fn first_line(text: &[u8]) -> (&[u8], &[u8])
    requires { 0 < length text.now }
    ensures lines { lines_of text.now ≡ result.0.now ∷ lines_of result.1.now }
    ensures shorter { length result.1.now < length text.now }
{
    match split_once(text, b'\n') {
        Some(cut) => cut,
        None => (text, &[]),
    }
}

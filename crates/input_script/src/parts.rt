//! The first of the parts that the bytes of a code separate.

ghost use Rattle.std.specs.Prelude.{◌≡◌, ◌+◌, ◌<◌, ◌≤◌, [], ◌∷◌, length, IfSome, MatchOption, position, ◌==◌};
ghost use Rattle.input_script.specs.Grammar.{parts_of};

/// The first part of a text, and what follows the byte after it, if there is one.
#[derive(Clone, Copy)]
pub struct FirstPart<'a> {
    pub part: &'a [u8],
    pub rest: Option<&'a [u8]>,
}

/// Where the first byte of a code stands, if there is one.
fn place_of(text: &[u8], code: u8) -> Option<usize>
    ensures { result ≡ position (λ byte. byte == code) text.now }
{
    text.iter().position(|byte| *byte == code)
}

/// The part of a text before the first byte of a code.
#[tactic(auto, using(crate::proofs::PartList::parts_of_last, crate::proofs::PartList::parts_of_more))]
pub fn first_part(text: &[u8], code: u8) -> FirstPart
    ensures parts { MatchOption result.rest
        (parts_of code text.now ≡ result.part.now ∷ [])
        (λ rest. parts_of code text.now ≡ result.part.now ∷ parts_of code rest.now) }
    ensures shorter { IfSome result.rest (λ rest. length result.part.now + length rest.now < length text.now) }
    ensures short { length result.part.now ≤ length text.now }
{
    match place_of(text, code) {
        Some(at) => FirstPart {
            part: &text[..at],
            rest: Some(&text[at + 1..]),
        },
        None => FirstPart {
            part: text,
            rest: None,
        },
    }
}

//! The fields of a line.

ghost use Rattle.std.specs.Prelude.{◌≡◌, ◌≢◌, length, IfSome, IfNone};
ghost use Rattle.access_trace.specs.Pieces.{pieces};
ghost use Rattle.access_trace.specs.Texts.{blank};
ghost use Rattle.access_trace.specs.Fields.{texts_of};

use crate::splitting::split_once;

/// The eight fields of a line, as they are written.
#[derive(Clone, Copy)]
pub struct Fields<'a> {
    pub tick: &'a [u8],
    pub kind: &'a [u8],
    pub attribute: &'a [u8],
    pub quiet: &'a [u8],
    pub va: &'a [u8],
    pub pa: &'a [u8],
    pub size: &'a [u8],
    pub value: &'a [u8],
}

/// The fields between the blanks of a line. None where it has not eight of them.
#[tactic(auto, using(crate::proofs::Splits::has_part))]
pub fn fields_of_line(line: &[u8]) -> Option<Fields<'_>>
    ensures some { IfSome result (λ fields. pieces blank line.now ≡ texts_of fields) }
    ensures none { IfNone result (length (pieces blank line.now) ≢ 8) }
{
    let (tick, rest) = split_once(line, b' ')?;
    let (kind, rest) = split_once(rest, b' ')?;
    let (attribute, rest) = split_once(rest, b' ')?;
    let (quiet, rest) = split_once(rest, b' ')?;
    let (va, rest) = split_once(rest, b' ')?;
    let (pa, rest) = split_once(rest, b' ')?;
    let (size, value) = split_once(rest, b' ')?;
    match split_once(value, b' ') {
        Some(_) => None,
        None => Some(Fields {
            tick,
            kind,
            attribute,
            quiet,
            va,
            pa,
            size,
            value,
        }),
    }
}

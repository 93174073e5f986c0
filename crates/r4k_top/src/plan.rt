//! What a run is made by, what is judged, and what a load is made of.

ghost use Rattle.std.specs.Prelude.{◌≡◌, ◌≤◌, false};

use crate::telling::Telling;
use r4_shape::Shape;

/// The plan of a run. Files go by their names on the shelf; where no script is given there are no inputs, and where no disk
/// is given it has no sectors.
#[derive(Clone, Copy)]
pub struct Plan<'a> {
    pub telling: Telling,
    /// The shape of the caches.
    pub shape: Shape,
    pub image: &'a str,
    pub script: Option<&'a str>,
    pub disk: Option<&'a str>,
    /// The most ticks that are made.
    pub steps: u32,
    ghost primary: { shape.sc ≡ false },
}

/// A trace that is judged, by its name on the shelf, and the shape on which it was made.
#[derive(Clone, Copy)]
pub struct Inquiry<'a> {
    pub shape: Shape,
    pub trace: &'a str,
    ghost primary: { shape.sc ≡ false },
}

/// A load: the number from which it is made, how many turns it has, and the name under which its image is put.
#[derive(Clone, Copy)]
pub struct Load<'a> {
    pub number: u32,
    pub count: u32,
    pub out: &'a str,
    ghost small: { count ≤ 100000 },
}

//! A table of marks, of which a whole row is cleared at once, in two touches.
//!
//! A ledger keeps in such a table what may be so of the lines of a cache. Cell c lies in row c mod rows, so that the cells
//! of a row are those of one cache index.
//!
//! - `cells`: numbers of which each reading and writing is counted.
//! - `marks`: the marks, each with the stamp of its row at the time when it was set. To clear a row is to raise its stamp.
#![tactic(auto)]

mod cells;
mod marks;

pub use cells::Cells;
pub use marks::Marks;

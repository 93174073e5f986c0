//! The tags of the primary caches: one for each index of the instruction cache and of the data cache, both of them direct-mapped,
//! virtually indexed and physically tagged.
//!
//! - `tag_array`: a tag, and the tags of a cache of SIZE bytes in lines of LINE bytes.
//! - `sides`: the tags of an instruction cache, which are never dirty, and those of a data cache.
//! - `geometry`: the tags of both caches of a machine, whatever the sizes of its caches and lines.
#![tactic(auto)]

mod geometry;
mod sides;
mod tag_array;

pub use geometry::Tags;
pub use sides::{DTags, ITags};
pub use tag_array::Tag;

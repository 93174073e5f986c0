//! Images: files of the ELF32 format, big-endian for MIPS, that the machine is started from.
//!
//! - `fields`: parts of a file.
//! - `segments`: the program headers, which name the segments of an image.
//! - `rules`: the rules that a file must meet, in the order in which they count.
//! - `reading`: the image, from a file's bytes, or the first broken rule.
//! - `loading`: the RAM after an image was loaded.
//! - `writing`: the image that the assembler writes.
//!
//! Clauses see an image as the bytes of its file. The definitions stand in specs/.
#![tactic(auto)]

mod fields;
mod loading;
mod reading;
mod rules;
mod segments;
mod writing;

pub use loading::load;
pub use reading::{Image, read_image};
pub use rules::{ImageFault, ImageRule};
pub use segments::Segment;
pub use writing::write_image;

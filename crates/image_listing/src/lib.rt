//! The listing of an image: its words as assembler text, a line for each.
//!
//! `write_listing` writes, for each stored segment in the order of the headers, the words that the file has of it:
//! address, word and text, as `a0010000 3c08bf00 lui t0,0xbf00`. What the text of a listing is stands in
//! `specs/Listing.antt`.
//!
//! - `lines`: the line of a word.
//! - `listing`: the lines of an image, written to a sink.
#![tactic(auto)]

mod lines;
mod listing;

pub use listing::write_listing;

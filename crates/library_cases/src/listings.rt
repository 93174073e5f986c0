//! The listing of an image: the verb of image_listing, over the file of the verbs of elf_image.

use crate::arguments::put_text;
use crate::images::image_of;
use crate::ports;
use crate::scene::Scene;
use elf_image::Image;
use image_listing::write_listing;
use r4_ports::SureSink;
use std::alloc::{AllocError, Global};

/// Appends the answer of a verb.
pub fn put_answer(
    alloc: Global,
    scene: &mut Scene,
    verb: &str,
    arguments: &str,
    out: &mut String,
) -> Result<(), AllocError> {
    match verb {
        "listing" => put_file_listing(alloc, &scene.file, out),
        _ => ports::put_answer(alloc, scene, verb, arguments, out),
    }
}

// Appends the listing of the image in a file.
fn put_file_listing(alloc: Global, file: &[u8], out: &mut String) -> Result<(), AllocError> {
    match image_of(file) {
        Some(image) => put_listing(alloc, &image, out),
        None => out.push_str("?"),
    }
}

// Appends the listing of an image.
fn put_listing(alloc: Global, image: &Image<'_>, out: &mut String) -> Result<(), AllocError> {
    let mut sink = SureSink::new(alloc, 1024)?;
    match write_listing(image, &mut sink) {
        Ok(()) => put_text(sink.bytes(), out),
        Err(_) => out.push_str("failed"),
    }
}

//! A list of named files, of which the first with a name counts.
ghost use Rattle.std.specs.Prelude.{◌≡◌, ◌≤◌, length, take, IfOk};
ghost use Rattle.std.specs.Option.{option_copied};
ghost use Rattle.std.specs.FinMap.{get};
ghost use Rattle.r4_ports.specs.Told.{file_of};
ghost use Rattle.r4_ports.specs.FileList.{files_of};

use r4_words::Memory;
use std::alloc::Global;

/// The bytes of the first file with this name, where there is one.
pub fn find_file<'a>(files: &'a [(String, Vec<u8>)], name: &str) -> Option<&'a [u8]>
    ensures { option_copied result ≡ get (files_of files.now) name.now }
{
    for file in files {
        if name == file.0.as_str() {
            return Some(file.1.as_slice());
        }
    }
    None
}

/// The bytes of the first file with this name; a file that is missing has none.
pub fn bytes_of<'a>(files: &'a [(String, Vec<u8>)], name: &str) -> &'a [u8]
    ensures { result.now ≡ file_of (files_of files.now) name.now }
{
    match find_file(files, name) {
        Some(bytes) => bytes,
        None => &[],
    }
}

/// A copy of the first bytes, at most so many.
pub fn first_bytes(alloc: Global, bytes: &[u8], cap: usize) -> Result<Vec<u8>, Memory>
    ensures bytes { IfOk result (λ v. v.items ≡ take cap bytes.now) }
    ensures at_most { IfOk result (λ v. length v.items ≤ cap) }
{
    Ok(Vec::from_slice(alloc, &bytes[..bytes.len().min(cap)])?)
}

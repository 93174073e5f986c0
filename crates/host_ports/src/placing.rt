//! A file that is put: written beside the one that stands there, and then moved into its place, so that a failure at any
//! moment leaves the old file or the new one.

use crate::streams::write_whole;
use std::alloc::{AllocError, Global};
use std::fs::{Metadata, OpenFile, OpenOptions, Permissions};
use std::io::{Error, ErrorKind, Write};
use std::os::unix::fs::{OpenOptionsExt, PermissionsExt};
use std::rt::Files;
use std::{fs, io};

// How many names beside a file are tried.
const TURNS: u32 = 100;

// The name of a file in the same folder, by its turn.
fn name_beside(alloc: Global, name: &str, turn: u32) -> Result<String, AllocError> {
    match name.rsplit_once('/') {
        Some((folder, _)) => format!(in alloc; "{folder}/.r4k-put-{turn}"),
        None => format!(in alloc; ".r4k-put-{turn}"),
    }
}

// Creates a file where nothing stands. Where permissions are given it never has wider ones, so that nobody can open it whom
// they keep out.
fn create_new<R: Files>(
    rt: &R,
    name: &str,
    permissions: Option<&Permissions>,
) -> io::Result<R::File> {
    let mut options = OpenOptions::new();
    options.write(true).create_new(true);
    if let Some(permissions) = permissions {
        options.mode(permissions.mode() & 0o777);
    }
    options.open(rt, name)
}

// Fills a new file, gives it exactly these permissions where there are any, and waits until the system has kept it.
fn fill<F: Write + OpenFile>(
    file: &mut F,
    permissions: Option<Permissions>,
    bytes: &[u8],
) -> io::Result<()> {
    write_whole(file, bytes)?;
    if let Some(permissions) = permissions {
        file.set_permissions(permissions)?;
    }
    file.sync_all()
}

// Fills a new file beside another, and moves it there. At a failure the new one is removed.
fn move_filled<R: Files>(
    rt: &R,
    mut file: R::File,
    beside: &str,
    name: &str,
    permissions: Option<Permissions>,
    bytes: &[u8],
) -> io::Result<()> {
    let mut moved = fill(&mut file, permissions, bytes);
    if moved.is_ok() {
        moved = fs::rename(rt, beside, name);
    }
    if moved.is_err() {
        let _ = fs::remove_file(rt, beside);
    }
    moved
}

// Sets a file to these bytes by a new one beside it, which gets these permissions where there are any.
fn replace<R: Files>(
    rt: &R,
    alloc: Global,
    name: &str,
    permissions: Option<Permissions>,
    bytes: &[u8],
) -> io::Result<()> {
    for turn in 0..TURNS {
        let beside = name_beside(alloc, name, turn)?;
        match create_new(rt, beside.as_str(), permissions.as_ref()) {
            Ok(file) => return move_filled(rt, file, beside.as_str(), name, permissions, bytes),
            Err(error) => {
                if error.kind() != ErrorKind::AlreadyExists {
                    return Err(error);
                }
            }
        }
    }
    Err(Error::from(ErrorKind::AlreadyExists))
}

// Replaces a file that may be written, and keeps its permissions.
fn replace_writable<R: Files>(
    rt: &R,
    alloc: Global,
    name: &str,
    there: &Metadata,
    bytes: &[u8],
) -> io::Result<()> {
    OpenOptions::new().write(true).open(rt, name)?;
    replace(rt, alloc, name, Some(there.permissions()), bytes)
}

// Writes into what stands under the name, as a link, a device or a pipe.
fn write_in_place<R: Files>(rt: &R, name: &str, bytes: &[u8]) -> io::Result<()> {
    let mut file = fs::create(rt, name)?;
    write_whole(&mut file, bytes)?;
    match file.sync_all() {
        Err(error) if error.kind() == ErrorKind::InvalidInput => Ok(()),
        synced => synced,
    }
}

/// Sets a file to these bytes. A regular file is replaced whole by one beside it, which has its permissions; at a failure
/// it stays as it was. What is no regular file, as a link, a device or a pipe, is written in place.
pub fn place<R: Files>(rt: &R, alloc: Global, name: &str, bytes: &[u8]) -> io::Result<()> {
    match fs::symlink_metadata(rt, name) {
        Ok(there) if there.is_file() => replace_writable(rt, alloc, name, &there, bytes),
        Ok(_) => write_in_place(rt, name, bytes),
        Err(error) if error.kind() == ErrorKind::NotFound => replace(rt, alloc, name, None, bytes),
        Err(error) => Err(error),
    }
}

#[cfg(test)]
mod tests;

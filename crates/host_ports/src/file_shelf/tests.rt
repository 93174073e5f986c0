// Real files: what stands after a put, and the counts.
use super::*;
use std::os::unix::fs::{PermissionsExt, symlink};
use std::{env, io, process};

// A path in the folder for temporary files, of this process alone.
fn path_of(rt: &HostRuntime, name: &str) -> io::Result<String> {
    let alloc = rt.alloc();
    let id = process::id(rt.process());
    let file = format!(in alloc; "r4k-shelf-{id}-{name}")?;
    let path = env::temp_dir(rt)?.join(alloc, file.as_str())?;
    Ok(String::from_str(alloc, path.as_str())?)
}

// Whether a file has these bytes.
fn holds(rt: &HostRuntime, path: &str, wanted: &[u8]) -> bool {
    let mut shelf = FileShelf::new(rt, rt.alloc());
    match shelf.fetch(rt.alloc(), path, 100) {
        Ok(bytes) => bytes.as_slice() == wanted && shelf.fetch_faults == 0,
        Err(_) => false,
    }
}

// Whether a put is answered with Ok, and not counted as failed.
fn puts(rt: &HostRuntime, path: &str, bytes: &[u8]) -> bool {
    let mut shelf = FileShelf::new(rt, rt.alloc());
    shelf.put(path, bytes).is_ok() && shelf.put_faults == 0
}

// Whether a put fails, and is counted.
fn fails_to_put(rt: &HostRuntime, path: &str) -> bool {
    let mut shelf = FileShelf::new(rt, rt.alloc());
    shelf.put(path, b"new").is_err() && shelf.put_faults == 1 && shelf.fetch_faults == 0
}

// Whether a fetch fails, not for want of memory, and is counted.
fn fails_to_fetch(rt: &HostRuntime, path: &str) -> bool {
    let mut shelf = FileShelf::new(rt, rt.alloc());
    match shelf.fetch(rt.alloc(), path, 100) {
        Ok(_) => false,
        Err(fault) => matches!(fault, FetchFault::Failed) && shelf.fetch_faults == 1,
    }
}

#[test]
fn a_put_replaces_a_file_and_keeps_its_permissions(rt: HostRuntime) -> io::Result<()> {
    let path = path_of(&rt, "file")?;
    assert!(rt; puts(&rt, path.as_str(), b"first"));
    assert!(rt; holds(&rt, path.as_str(), b"first"));
    fs::set_permissions(&rt, path.as_str(), PermissionsExt::from_mode(0o640))?;
    assert!(rt; puts(&rt, path.as_str(), b"second"));
    assert!(rt; holds(&rt, path.as_str(), b"second"));
    let mode = fs::metadata(&rt, path.as_str())?.permissions().mode();
    assert_eq!(rt; mode % 0o1000, 0o640);
    fs::remove_file(&rt, path.as_str())?;
    Ok(())
}

#[test]
fn a_put_through_a_link_leaves_the_link(rt: HostRuntime) -> io::Result<()> {
    let path = path_of(&rt, "target")?;
    let link = path_of(&rt, "link")?;
    assert!(rt; puts(&rt, path.as_str(), b"first"));
    symlink(&rt, path.as_str(), link.as_str())?;
    assert!(rt; puts(&rt, link.as_str(), b"second"));
    assert!(rt; holds(&rt, path.as_str(), b"second"));
    assert!(rt; fs::symlink_metadata(&rt, link.as_str())?.is_symlink());
    fs::remove_file(&rt, link.as_str())?;
    fs::remove_file(&rt, path.as_str())?;
    Ok(())
}

#[test]
fn what_is_missing_or_takes_nothing_is_a_failure(rt: HostRuntime) -> io::Result<()> {
    let missing = path_of(&rt, "missing")?;
    assert!(rt; fails_to_fetch(&rt, missing.as_str()));
    assert!(rt; fails_to_fetch(&rt, "/dev"));
    assert!(rt; fails_to_put(&rt, "/nowhere/a"));
    assert!(rt; fails_to_put(&rt, "/dev"));
    assert!(rt; fails_to_put(&rt, "/dev/full"));
    Ok(())
}

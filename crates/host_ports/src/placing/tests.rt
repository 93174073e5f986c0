// A new file before it is filled.
use super::*;
use std::{env, process};

#[test]
fn a_new_file_is_private_from_the_start(rt: HostRuntime) -> io::Result<()> {
    let alloc = rt.alloc();
    let id = process::id(rt.process());
    let name = format!(in alloc; "r4k-private-{id}")?;
    let path = env::temp_dir(&rt)?.join(alloc, name.as_str())?;
    let permissions: Permissions = PermissionsExt::from_mode(0o100600);
    create_new(&rt, path.as_str(), Some(&permissions))?;
    let there = fs::metadata(&rt, path.as_str())?;
    assert_eq!(rt; there.permissions().mode() % 0o1000, 0o600);
    assert!(rt; create_new(&rt, path.as_str(), None).is_err());
    fs::remove_file(&rt, path.as_str())?;
    Ok(())
}

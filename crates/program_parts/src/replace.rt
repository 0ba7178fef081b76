//! Files whose content is replaced as a whole.
use std::fs::{File, Permissions};
use std::io::{ErrorKind, Write};
use std::{fs, io};

/// Replaces the content of a file. It is written to a file beside it, whose name ends with that of
/// the program and `.tmp`, and that is renamed once its data is on disk. The file keeps its
/// permissions, and a symbolic link stays one.
///
/// # Errors
///
/// Not a file; out of memory; what the system refuses. The file stands as it was then, and the one
/// beside it is removed.
pub fn replace_file(rt: &HostRuntime, file: &str, name: &str, content: &[u8]) -> io::Result<()> {
    let target = fs::canonicalize(rt, file)?;
    let target = target.as_str();
    let metadata = fs::metadata(rt, target)?;
    if !metadata.is_file() {
        return Err(io::Error::new(ErrorKind::InvalidInput, "not a file that can be replaced"));
    }
    let beside = format!(in rt.alloc(); "{target}.{name}.tmp")?;
    // A run that was killed may have left one.
    let beside = beside.as_str();
    let _ = fs::remove_file(rt, beside);
    let replaced = write_and_rename(rt, beside, target, metadata.permissions(), content);
    if replaced.is_err() {
        let _ = fs::remove_file(rt, beside);
    }
    replaced
}

fn write_and_rename(
    rt: &HostRuntime,
    beside: &str,
    target: &str,
    permissions: Permissions,
    content: &[u8],
) -> io::Result<()> {
    write_new(rt, beside, permissions, content)?;
    fs::rename(rt, beside, target)
}

/// Writes a new file with these permissions, so that its data is on disk.
fn write_new(
    rt: &HostRuntime,
    path: &str,
    permissions: Permissions,
    content: &[u8],
) -> io::Result<()> {
    let mut file = File::create_new(rt, path)?;
    file.set_permissions(permissions)?;
    file.write_all(content)?;
    file.sync_all()
}

//! The files of the system, and how one is replaced.

ghost use Rattle.std.specs.Prelude.{◌≡◌, bit_and, take, OnOk, IfOk, IfErr, IsTrue};
ghost use Rattle.std.specs.Io.KnownBytes.{Appends};
ghost use Rattle.std.specs.Fs.{metadata_mode, permissions_mode};

use crate::folders::Folder;
use crate::paths::{PARTS, linked, part_path};
use crate::streams::{WriteFault, write_text};
use mrc_base::OrMemory;
use std::alloc::Global;
use std::fs::{Metadata, OpenFile, OpenOptions, Permissions};
use std::io::{ErrorKind, Write};
use std::os::unix::fs::{MetadataExt, OpenOptionsExt, PermissionsExt};
use std::rt::Files;
use std::{fs, io};

/// The files of the system. What they hold is not known.
#[derive(Clone, Copy)]
pub struct Disk<'a, R>(pub &'a R);

impl<R: Files> Folder for Disk<'_, R> {
    ghost use Rattle.std.specs.Prelude.{None};

    type File = R::File;

    ghost held = { λ _ _. None };

    fn open(&self, name: &str) -> io::Result<R::File> {
        fs::open(self.0, name)
    }

    /// The bytes are written to a new file beside it, which then takes its place. Links are
    /// followed, and a file keeps its mode. What can't be replaced is written in place: what is no
    /// regular file, a file with other hard links or another owner, and one whose folder allows no
    /// new file. A file that may not be written to, or a folder, is `WriteFailed 0`.
    fn replace(
        &mut self,
        alloc: Global,
        name: &str,
        bytes: &[u8],
    ) -> Result<(), OrMemory<WriteFault>> {
        match OpenOptions::new().write(true).open(self.0, name) {
            Ok(mut file) => write_over(self.0, alloc, name, &mut file, bytes),
            Err(error) if error.kind() == ErrorKind::NotFound => {
                write_new(self.0, alloc, name, bytes)
            }
            Err(_) => Err(NOTHING),
        }
    }
}

/// Nothing went out.
const NOTHING: OrMemory<WriteFault> = OrMemory::Fault(WriteFault { written: 0 });

/// Links that lead from one to the next, at most.
const LINKS: u32 = 40;

/// Writes to a file that is there and open.
fn write_over<R: Files>(
    files: &R,
    alloc: Global,
    name: &str,
    file: &mut R::File,
    bytes: &[u8],
) -> Result<(), OrMemory<WriteFault>> {
    let Ok(found) = file.metadata() else {
        return Err(NOTHING);
    };
    if !found.is_file() {
        return write_text(file, bytes).map_err(OrMemory::Fault);
    }
    if found.nlink() == 1 && is_replaced(files, alloc, name, &found, bytes)? {
        return Ok(());
    }
    write_in_place(file, bytes).map_err(OrMemory::Fault)
}

/// Writes a file that is not there yet.
fn write_new<R: Files>(
    files: &R,
    alloc: Global,
    name: &str,
    bytes: &[u8],
) -> Result<(), OrMemory<WriteFault>> {
    let Some(path) = followed(files, alloc, name)? else {
        return Err(NOTHING);
    };
    if is_put(files, alloc, path.as_str(), None, bytes)? {
        Ok(())
    } else {
        Err(NOTHING)
    }
}

/// Writes a regular file from its start, in the place of what it held.
fn write_in_place<F: Write + OpenFile>(file: &mut F, bytes: &[u8]) -> Result<(), WriteFault>
    ensures whole { OnOk result (Appends (F.contents file.old) (F.contents file.new) bytes.now) }
    ensures cut { IfErr result (λ fault.
        Appends (F.contents file.old) (F.contents file.new) (take fault.written bytes.now)) }
{
    if file.set_len(0).is_err() {
        return Err(WriteFault { written: 0 });
    }
    write_text(file, bytes)?;
    sync(file, bytes.len())
}

/// Whether the file of a name was replaced by a new one; not where its links don't lead to it, or
/// where a new one can't take its place.
fn is_replaced<R: Files>(
    files: &R,
    alloc: Global,
    name: &str,
    found: &Metadata,
    bytes: &[u8],
) -> Result<bool, OrMemory<WriteFault>> {
    let Some(path) = followed(files, alloc, name)? else {
        return Ok(false);
    };
    match fs::symlink_metadata(files, path.as_str()) {
        Ok(there) if is_same_file(&there, found) => {
            is_put(files, alloc, path.as_str(), Some(found), bytes)
        }
        _ => Ok(false),
    }
}

/// Whether both are of one file.
fn is_same_file(one: &Metadata, other: &Metadata) -> bool {
    one.dev() == other.dev() && one.ino() == other.ino()
}

/// The path that links lead to from a path, which is no link itself; none where it can't be told.
fn followed<R: Files>(
    files: &R,
    alloc: Global,
    path: &str,
) -> Result<Option<String>, OrMemory<WriteFault>> {
    let mut path = String::from_str(alloc, path)?;
    for _ in 0..=LINKS {
        match fs::symlink_metadata(files, path.as_str()) {
            Ok(found) if found.is_symlink() => {}
            Ok(_) => return Ok(Some(path)),
            Err(error) if error.kind() == ErrorKind::NotFound => return Ok(Some(path)),
            Err(_) => return Ok(None),
        }
        let Ok(target) = files.read_link(alloc, path.as_str()) else {
            return Ok(None);
        };
        path = linked(alloc, path.as_str(), target.as_path().as_str())?;
    }
    Ok(None)
}

/// A new file beside another.
#[derive(Drop)]
struct Part<F: Drop> {
    path: String,
    file: F,
}

/// What a new file can't be made by where the folder doesn't let.
fn is_denied(error: &io::Error) -> bool {
    matches!(
        error.kind(),
        ErrorKind::PermissionDenied | ErrorKind::ReadOnlyFilesystem
    )
}

/// Makes a file of this mode beside another, under a name that nothing has; none where the folder
/// allows no new file.
fn new_part<R: Files>(
    files: &R,
    alloc: Global,
    path: &str,
    mode: u32,
) -> Result<Option<Part<R::File>>, OrMemory<WriteFault>> {
    for number in 0..PARTS {
        let part = part_path(alloc, path, number)?;
        let mut options = OpenOptions::new();
        options.write(true).create_new(true).mode(mode);
        match options.open(files, part.as_str()) {
            Ok(file) => return Ok(Some(Part { path: part, file })),
            Err(error) if error.kind() == ErrorKind::AlreadyExists => {}
            Err(error) if is_denied(&error) => return Ok(None),
            Err(_) => return Err(NOTHING),
        }
    }
    Err(NOTHING)
}

/// Whether a new file with these bytes took the place of a path's; not where the folder doesn't let
/// it. It has the mode of the old one, or where there is none that of any new file.
fn is_put<R: Files>(
    files: &R,
    alloc: Global,
    path: &str,
    old: Option<&Metadata>,
    bytes: &[u8],
) -> Result<bool, OrMemory<WriteFault>> {
    let mode = if old.is_some() { 0o600 } else { 0o666 };
    let Some(mut part) = new_part(files, alloc, path, mode)? else {
        return Ok(false);
    };
    let put = match is_filled(&mut part.file, old, bytes) {
        Ok(true) => is_renamed(files, part.path.as_str(), path),
        other => other,
    };
    if put != Ok(true) {
        let _ = fs::remove_file(files, part.path.as_str());
    }
    put.map_err(OrMemory::Fault)
}

/// Whether a new file has the bytes, and the owner and the mode of the old one.
fn is_filled<F: Write + OpenFile>(
    file: &mut F,
    old: Option<&Metadata>,
    bytes: &[u8],
) -> Result<bool, WriteFault>
    ensures { IfOk result (λ filled. IsTrue filled
        → Appends (F.contents file.old) (F.contents file.new) bytes.now) }
{
    if old.is_some_and(|old| !has_owner_of(file, old)) {
        return Ok(false);
    }
    write_text(file, bytes)?;
    if old.is_some_and(|old| file.set_permissions(kept_permissions(old)).is_err()) {
        return Ok(false);
    }
    sync(file, bytes.len())?;
    Ok(true)
}

/// Whether a file has the owner and the group of another.
fn has_owner_of<F: OpenFile>(file: &F, other: &Metadata) -> bool {
    match file.metadata() {
        Ok(found) => found.uid() == other.uid() && found.gid() == other.gid(),
        Err(_) => false,
    }
}

/// The permissions of a file: who may read, write and run it.
fn kept_permissions(old: &Metadata) -> Permissions
    ensures { permissions_mode result ≡ bit_and (metadata_mode old.now) 0o777 }
{
    Permissions::from_mode(old.mode() & 0o777)
}

/// Whether a file was given another name, in the place of what had it; not where the folder doesn't
/// let it.
fn is_renamed<R: Files>(files: &R, part: &str, path: &str) -> Result<bool, WriteFault> {
    match fs::rename(files, part, path) {
        Ok(()) => Ok(true),
        Err(error) if is_denied(&error) => Ok(false),
        Err(_) => Err(WriteFault { written: 0 }),
    }
}

/// Sees that what was written is kept, where the file can say so.
fn sync<F: OpenFile>(file: &F, written: usize) -> Result<(), WriteFault>
    ensures { IfErr result (λ fault. fault.written ≡ written) }
{
    match file.sync_all() {
        Ok(()) => Ok(()),
        Err(error) => match error.kind() {
            ErrorKind::InvalidInput | ErrorKind::Unsupported => Ok(()),
            _ => Err(WriteFault { written }),
        },
    }
}

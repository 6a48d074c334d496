//! Paths: the folder and the name, what a link means, and where a part file stands.

ghost use Rattle.std.specs.Prelude.{◌≡◌, ◌≢◌, ◌≤◌, ◌<◌, IfOk, length, string_bytes};
ghost use Rattle.mrc_files.specs.Paths.{folder, name, linked, shown, part};

use std::alloc::{AllocError, Global};

/// Part files of one file at once, at most.
pub const PARTS: u32 = 1000;

/// Bytes of a file's name that its part file's name has room for.
const SHOWN: usize = 200;

/// The folder of a path, with its last slash.
fn folder_of(alloc: Global, path: &str) -> Result<String, AllocError>
    ensures { IfOk result (λ text. string_bytes text ≡ folder path.now) }
{
    match path.rsplit_once('/') {
        Some((before, _)) => format!(in alloc; "{before}/"),
        None => Ok(String::new(alloc)),
    }
}

/// The name of a path, behind its last slash.
pub fn name_of(path: &str) -> &str
    ensures { result.now ≡ name path.now }
{
    match path.rsplit_once('/') {
        Some((_, name)) => name,
        None => path,
    }
}

/// A file's name as its part file's name has it: not at all where it is long.
fn shown_of(name: &str) -> &str
    ensures { result.now ≡ shown name.now }
{
    if name.len() <= SHOWN { name } else { "" }
}

/// The path that a link means by its target: one that begins with a slash is a path by itself, and
/// any other is relative to the folder of the link.
pub fn linked(alloc: Global, link: &str, target: &str) -> Result<String, AllocError>
    ensures { IfOk result (λ path. string_bytes path ≡ linked link.now target.now) }
{
    if target.as_bytes().first() == Some(&b'/') {
        return String::from_str(alloc, target);
    }
    let mut path = folder_of(alloc, link)?;
    path.push_str(target)?;
    Ok(path)
}

/// The path of a file's part file by its number: in the same folder, and under another name.
pub fn part_path(alloc: Global, path: &str, number: u32) -> Result<String, AllocError>
    ensures exact { IfOk result (λ text. string_bytes text ≡ part path.now number) }
{
    let folder = folder_of(alloc, path)?;
    let name = shown_of(name_of(path));
    format!(in alloc; "{folder}.{name}.machcheck-{number}.part")
}

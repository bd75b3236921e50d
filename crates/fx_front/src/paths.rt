//! Names of files.
ghost use Rattle.std.specs.Prelude.{◌≡◌, ◌++◌, IfOk, option_map, string_bytes};
ghost use Rattle.std.specs.Path.{path_with_file_name};
ghost use Rattle.fx_front.specs.Links.{Follows, most_links};
ghost use Rattle.fx_front.specs.Targets.{folder_of};

use crate::disk::{Disk, Link};
use std::alloc::{AllocError, Global};
use std::fs::File;
use std::os::fd::AsRawFd;
use std::path::Path;

/// How many links are followed, as by the system.
const LINKS: u32 = 40;

/// The name of the folder of a file, with its slash; empty for the current one.
pub fn folder_of(path: &str) -> &str
    ensures { result.now ≡ folder_of path.now }
{
    match path.rfind('/') {
        Some(at) => path.get(..at + 1).unwrap_or(""),
        None => "",
    }
}

/// A name in the folder of another.
pub fn in_folder(alloc: Global, path: &str, name: &str) -> Result<String, AllocError>
    ensures { IfOk result (λ found. string_bytes found ≡ folder_of path.now ++ name.now) }
{
    let mut found = String::from_str(alloc, folder_of(path))?;
    found.push_str(name)?;
    Ok(found)
}

/// The name to which the links at the end of a path lead. None if one can't be followed. An error means that memory ran out.
pub fn followed<D: Disk>(alloc: Global, disk: &D, path: &str) -> Result<Option<String>, AllocError>
    ensures { IfOk result (λ found. Follows (D.Leads disk.now) most_links path.now (option_map string_bytes found)) }
{
    let mut name = String::from_str(alloc, path)?;
    // `name` is reached from the path by the links so far.
    'links: for k in 0..LINKS {
        match disk.link(name.as_str()) {
            Link::To(target) => name = beside(alloc, name.as_str(), target.as_str())?,
            Link::Ends => return Ok(Some(name)),
            Link::Unread => return Ok(None),
        }
    }
    Ok(None)
}

/// A name that counts from the folder of another.
fn beside(alloc: Global, name: &str, target: &str) -> Result<String, AllocError>
    ensures { IfOk result (λ found. string_bytes found ≡ path_with_file_name name.now target.now) }
{
    Ok(Path::new(name).with_file_name(alloc, target)?.into_string())
}

/// The same open file, under a number above the standard streams. If a stream is closed, the next file that is opened gets its
/// number, and what is written to the stream would go to that file.
pub(crate) fn beside_streams(file: File) -> Option<File> {
    if file.as_raw_fd() > 2 {
        return Some(file);
    }
    file.try_clone().ok()
}

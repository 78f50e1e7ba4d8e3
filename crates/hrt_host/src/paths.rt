// Paths in memory of their own, so that none is asked for once a run has begun.
use arrayvec::ArrayString;
use std::fmt::Write;
use std::fs;

// The most links that are followed one after the other, as the system does.
const MOST_LINKS: u32 = 40;

/// A path. The system takes none that is longer.
pub type PathText = ArrayString<4095>;

/// The folder of a path, or none where that is the working folder, and the name in it.
pub fn folder_and_name(path: &str) -> (Option<&str>, &str) {
    match path.rsplit_once('/') {
        Some((folder, name)) => (Some(folder), name),
        None => (None, path),
    }
}

/// The path of a name in a folder.
pub fn path_in(folder: Option<&str>, name: &str) -> Option<PathText> {
    let mut path = PathText::new();
    if let Some(folder) = folder {
        write!(path, "{folder}/").ok()?;
    }
    path.try_push_str(name).ok()?;
    Some(path)
}

/// The path at which the links end that a path names, whether or not there is a file. Reading a link takes memory.
pub fn behind_links(rt: &HostRuntime, name: &str) -> Option<PathText> {
    let mut path = path_in(None, name)?;
    for _ in 0..MOST_LINKS {
        let is_link = fs::symlink_metadata(rt, path.as_str()).is_ok_and(|found| found.is_symlink());
        if !is_link {
            return Some(path);
        }
        let link = fs::read_link(rt, path.as_str()).ok()?;
        path = if link.is_absolute() {
            path_in(None, link.as_str())?
        } else {
            let (folder, _) = folder_and_name(path.as_str());
            path_in(folder, link.as_str())?
        };
    }
    None
}

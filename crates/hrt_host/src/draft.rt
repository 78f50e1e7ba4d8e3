// Files that are written beside those that they will replace.
use crate::node::Node;
use crate::paths::{PathText, folder_and_name, path_in};
use arrayvec::ArrayString;
use std::fmt::Write;
use std::fs::{self, File, OpenOptions, Permissions};
use std::io::{ErrorKind, Write as _};
use std::process;

// How many names are tried for one draft.
const MOST_TRIES: u32 = 1000;

/// A new file in the folder of its target, which it replaces once it is whole.
#[derive(Drop)]
pub struct Draft {
    file: File,
    path: PathText,
    target: PathText,
    folder: Node,
    own: Node,
}

/// Begins a draft of the file at a path that no link ends, with the permissions of the one that is there.
pub fn begin_draft(
    rt: &HostRuntime,
    at: usize,
    target: PathText,
    permissions: Option<Permissions>,
) -> Option<Draft> {
    let folder = folder_of(rt, target.as_str())?;
    let (path, file) = new_file(rt, at, target.as_str())?;
    let Some(own) = ready(&file, permissions) else {
        let _ = fs::remove_file(rt, path.as_str());
        return None;
    };
    Some(Draft {
        file,
        path,
        target,
        folder,
        own,
    })
}

// Gives a new file its permissions, and tells which one it is.
fn ready(file: &File, permissions: Option<Permissions>) -> Option<Node> {
    if let Some(permissions) = permissions {
        file.set_permissions(permissions).ok()?;
    }
    let found = file.metadata().ok()?;
    Some(Node::of(&found))
}

/// The folder of a path.
pub fn folder_of(rt: &HostRuntime, path: &str) -> Option<Node> {
    let (folder, _) = folder_and_name(path);
    let folder = match folder {
        None => path_in(None, "."),
        Some(folder) => path_in(Some(folder), ""),
    };
    let found = fs::metadata(rt, folder?.as_str()).ok()?;
    Some(Node::of(&found))
}

// A new file in the folder of a target. Its name says that it is unfinished, of which process and of which port.
fn new_file(rt: &HostRuntime, at: usize, target: &str) -> Option<(PathText, File)> {
    let (folder, name) = folder_and_name(target);
    if name.is_empty() {
        return None;
    }
    let process = process::id(rt.process());
    for attempt in 0..MOST_TRIES {
        let mut own = ArrayString::<64>::new();
        write!(own, "hrt-unfinished-{process}-{at}-{attempt}").ok()?;
        let path = path_in(folder, own.as_str())?;
        let opened = OpenOptions::new()
            .write(true)
            .create_new(true)
            .open(rt, path.as_str());
        match opened {
            Ok(file) => return Some((path, file)),
            Err(error) if error.kind() == ErrorKind::AlreadyExists => {}
            Err(_) => return None,
        }
    }
    None
}

impl Draft {
    /// The file that is written.
    pub fn node(&self) -> Node {
        self.own
    }

    /// Whether it will replace the file of this name in this folder.
    pub fn replaces(&self, folder: Node, name: &str) -> bool {
        let (_, own) = folder_and_name(self.target.as_str());
        self.folder == folder && own == name
    }

    /// Writes all the bytes.
    pub fn write(&mut self, bytes: &[u8]) -> bool {
        self.file.write_all(bytes).is_ok()
    }

    /// Waits until all that was written is kept, and puts the file in the place of its target.
    pub fn replace(&self, rt: &HostRuntime) -> bool {
        self.file.sync_all().is_ok()
            && fs::rename(rt, self.path.as_str(), self.target.as_str()).is_ok()
    }
}

/// Removes a draft that wasn't finished.
pub fn discard(rt: &HostRuntime, draft: Draft) {
    let _ = fs::remove_file(rt, draft.path.as_str());
}

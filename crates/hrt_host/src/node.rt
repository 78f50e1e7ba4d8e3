// Which file of the system a name means.
use std::fs::Metadata;
use std::os::unix::fs::MetadataExt;

/// A file, by the number of its device and its own number there. Two names mean one file just where these are equal.
#[derive(Clone, Copy, Debug, PartialEq, Eq)]
pub struct Node {
    device: u64,
    number: u64,
}

impl Node {
    /// The file that was asked about.
    pub fn of(metadata: &Metadata) -> Node {
        Node {
            device: metadata.dev(),
            number: metadata.ino(),
        }
    }
}

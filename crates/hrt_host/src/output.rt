// Outputs, as they begin.
ghost use Rattle.std.specs.Prelude.{◌≡◌, IfSome};
ghost use Rattle.hrt_host.specs.Doors.{door_begun};

use crate::draft::{begin_draft, folder_of};
use crate::gate::{Door, Gate, at_door};
use crate::node::Node;
use crate::paths::{behind_links, folder_and_name};
use hrt_base::Begun;
use std::fs::{self, File, Metadata, OpenOptions};
use std::io::ErrorKind;
use std::os::unix::fs::FileTypeExt;

/// Begins an output of this name at a port; none where it can't be written, or is a file with which another port has to do.
pub fn begin_output(rt: &HostRuntime, gates: &[Gate], at: usize, name: &str) -> Option<Gate>
    ensures { IfSome result (λ gate. door_begun gate.door ≡ Begun.Writing) }
{
    match OpenOptions::new().write(true).open(rt, name) {
        Ok(file) => {
            let found = file.metadata().ok()?;
            if found.is_file() {
                over_file(rt, gates, at, name, &found)
            } else {
                as_it_is(rt, gates, at, file, &found)
            }
        }
        Err(error) if error.kind() == ErrorKind::NotFound => new_file(rt, gates, at, name),
        Err(_) => None,
    }
}

// Over a regular file, unless standard output goes there.
fn over_file(
    rt: &HostRuntime,
    gates: &[Gate],
    at: usize,
    name: &str,
    found: &Metadata,
) -> Option<Gate>
    ensures { IfSome result (λ gate. door_begun gate.door ≡ Begun.Writing) }
{
    let node = Node::of(found);
    if is_standard_output(rt, node) {
        return Some(at_door(Door::Printing));
    }
    if is_used(gates, at, node) {
        return None;
    }
    let target = behind_links(rt, name)?;
    let draft = begin_draft(rt, at, target, Some(found.permissions()))?;
    let made = Some(draft.node());
    Some(Gate {
        door: Door::Drafting(draft),
        found: Some(node),
        made,
    })
}

// To a device or a pipe. Two outputs may go to one terminal, or to a device that takes all.
fn as_it_is(
    rt: &HostRuntime,
    gates: &[Gate],
    at: usize,
    file: File,
    found: &Metadata,
) -> Option<Gate>
    ensures { IfSome result (λ gate. door_begun gate.door ≡ Begun.Writing) }
{
    let node = Node::of(found);
    if is_standard_output(rt, node) {
        return Some(at_door(Door::Printing));
    }
    if found.file_type().is_char_device() {
        return Some(at_door(Door::Writing(file)));
    }
    if is_used(gates, at, node) {
        return None;
    }
    Some(Gate {
        door: Door::Writing(file),
        found: Some(node),
        made: None,
    })
}

// Where there is no file yet.
fn new_file(rt: &HostRuntime, gates: &[Gate], at: usize, name: &str) -> Option<Gate>
    ensures { IfSome result (λ gate. door_begun gate.door ≡ Begun.Writing) }
{
    let target = behind_links(rt, name)?;
    let folder = folder_of(rt, target.as_str())?;
    let (_, last) = folder_and_name(target.as_str());
    if is_made(gates, at, folder, last) {
        return None;
    }
    let draft = begin_draft(rt, at, target, None)?;
    let made = Some(draft.node());
    Some(Gate {
        door: Door::Drafting(draft),
        found: None,
        made,
    })
}

// Whether standard output goes to this file.
fn is_standard_output(rt: &HostRuntime, node: Node) -> bool {
    fs::metadata(rt, "/dev/stdout").is_ok_and(|found| Node::of(&found) == node)
}

// Whether another port has to do with this file.
fn is_used(gates: &[Gate], at: usize, node: Node) -> bool {
    for k in 0..gates.len() {
        if k != at && gates[k].has(node) {
            return true;
        }
    }
    false
}

// Whether another port will make the file of this name in this folder.
fn is_made(gates: &[Gate], at: usize, folder: Node, name: &str) -> bool {
    for k in 0..gates.len() {
        if k != at && gates[k].makes(folder, name) {
            return true;
        }
    }
    false
}

// How a port of the real host stands, and what it does there.
ghost use Rattle.std.specs.Prelude.{◌≡◌, ◌≤◌, length, IfSome};
ghost use Rattle.std.specs.Bool.{OnTrue, OnFalse};
ghost use Rattle.hrt_host.specs.Doors.{door_begun};

use crate::draft::{Draft, discard};
use crate::node::Node;
use hrt_base::Begun;
use std::fs::{self, File};
use std::io::{ErrorKind, Read, Write};
use std::mem;

/// Where the bytes of a port come from, or go.
#[derive(Drop)]
pub enum Door {
    Idle,
    Reading(File),
    // what is no regular file, as a device or a pipe, is written as it is
    Writing(File),
    Drafting(Draft),
    Printing,
}

/// A port. (A struct round the enum: what a method leaves in an enum that is lent out of an array has no plain name in proofs.)
#[derive(Drop)]
pub struct Gate {
    pub door: Door,
    /// The file that the port's name meant when it was begun.
    pub found: Option<Node>,
    /// The file that is to stand in its place, or stands there.
    pub made: Option<Node>,
}

/// A port behind which nothing is.
pub fn shut() -> Gate
    ensures { result.door ≡ Door.Idle }
{
    at_door(Door::Idle)
}

/// A port whose file need not be told from others.
pub fn at_door(door: Door) -> Gate
    ensures { result.door ≡ door }
{
    Gate {
        door,
        found: None,
        made: None,
    }
}

/// A port that reads a file.
pub fn reading(rt: &HostRuntime, name: &str) -> Option<Gate>
    ensures { IfSome result (λ gate. door_begun gate.door ≡ Begun.Reading) }
{
    let file = fs::open(rt, name).ok()?;
    let found = file.metadata().ok()?;
    Some(Gate {
        door: Door::Reading(file),
        found: Some(Node::of(&found)),
        made: None,
    })
}

// Fills the buffer from a file, or up to the file's end. A call that a signal interrupts is made again.
fn fill(file: &mut File, buffer: &mut [u8]) -> Option<usize>
    ensures { IfSome result (λ n. n ≤ length buffer.new) }
{
    let mut done = 0;
    for _ in 0..u64::MAX {
        if done >= buffer.len() {
            return Some(done);
        }
        match file.read(&mut buffer[done..]) {
            Ok(0) => return Some(done),
            Ok(count) => done += count,
            Err(error) if error.kind() == ErrorKind::Interrupted => {}
            Err(_) => return None,
        }
    }
    None
}

impl Gate {
    /// Fills the buffer, or as far as the file goes.
    pub fn read(&mut self, buffer: &mut [u8]) -> Option<usize>
        ensures begun { door_begun self.new.door ≡ door_begun self.old.door }
        ensures count { IfSome result (λ n. n ≤ length buffer.new) }
    {
        match mem::replace(&mut self.door, Door::Idle) {
            Door::Reading(mut file) => {
                let moved = fill(&mut file, buffer);
                self.door = Door::Reading(file);
                moved
            }
            other => {
                self.door = other;
                None
            }
        }
    }

    /// Writes all the bytes, in as many calls as it takes. A call that takes none is an error.
    pub fn write(&mut self, rt: &HostRuntime, bytes: &[u8]) -> bool
        ensures { door_begun self.new.door ≡ door_begun self.old.door }
    {
        match mem::replace(&mut self.door, Door::Idle) {
            Door::Writing(mut file) => {
                let written = file.write_all(bytes).is_ok();
                self.door = Door::Writing(file);
                written
            }
            Door::Drafting(mut draft) => {
                let written = draft.write(bytes);
                self.door = Door::Drafting(draft);
                written
            }
            Door::Printing => {
                self.door = Door::Printing;
                rt.stdout().write_all(bytes).is_ok()
            }
            other => {
                self.door = other;
                false
            }
        }
    }

    /// Puts a draft in the place of its target, closes a file, or ends the printing.
    pub fn close(&mut self, rt: &HostRuntime) -> bool
        ensures closed { OnTrue result (self.new.door ≡ Door.Idle) }
        ensures failed { OnFalse result (door_begun self.new.door ≡ door_begun self.old.door) }
    {
        match mem::replace(&mut self.door, Door::Idle) {
            Door::Writing(mut file) => {
                if file.flush().is_ok() {
                    return true;
                }
                self.door = Door::Writing(file);
                false
            }
            Door::Drafting(draft) => {
                if draft.replace(rt) {
                    return true;
                }
                self.door = Door::Drafting(draft);
                false
            }
            Door::Printing => {
                if rt.stdout().flush().is_ok() {
                    return true;
                }
                self.door = Door::Printing;
                false
            }
            other => {
                self.door = other;
                false
            }
        }
    }

    /// Whether it has to do with this file.
    pub fn has(&self, node: Node) -> bool {
        self.found == Some(node) || self.made == Some(node)
    }

    /// Whether it will make the file of this name in this folder.
    pub fn makes(&self, folder: Node, name: &str) -> bool {
        match &self.door {
            Door::Drafting(draft) => draft.replaces(folder, name),
            _ => false,
        }
    }
}

/// Leaves a port. A draft that isn't finished is removed.
pub fn leave(rt: &HostRuntime, gate: Gate) {
    if let Door::Drafting(draft) = gate.door {
        discard(rt, draft);
    }
}

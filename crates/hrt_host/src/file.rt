// A file of a host in memory.
ghost use Rattle.std.specs.Prelude.{◌≡◌, ◌+◌, ◌≤◌, min, [], ◌++◌, length, take, is_ok, if◌then◌else◌, IfOk, vec_len, vec_capacity};

use hrt_base::NoMemory;
use std::alloc::Global;

#[derive(Drop)]
pub struct File {
    pub name: Vec<u8>,
    pub bytes: Vec<u8>,
    // How many more bytes may be written. Their memory was taken in advance.
    pub room: usize,
    ghost fits: { vec_len bytes + room ≤ vec_capacity bytes },
}

impl File {
    // No name, no bytes and no room.
    pub fn blank(alloc: Global) -> File
        ensures name { result.name.items ≡ [] }
        ensures bytes { result.bytes.items ≡ [] }
        ensures room { result.room ≡ 0 }
    {
        File {
            name: Vec::new(alloc),
            bytes: Vec::new(alloc),
            room: 0,
        }
    }

    // A file that is not written any more.
    pub fn whole(alloc: Global, name: &[u8], bytes: &[u8]) -> Result<File, NoMemory>
        ensures name { IfOk result (λ file. file.name.items ≡ name.now) }
        ensures bytes { IfOk result (λ file. file.bytes.items ≡ bytes.now) }
    {
        Ok(File {
            name: Vec::from_slice(alloc, name)?,
            bytes: Vec::from_slice(alloc, bytes)?,
            room: 0,
        })
    }

    // A file that is to be written.
    pub fn with_room(alloc: Global, name: &[u8], room: usize) -> Result<File, NoMemory>
        ensures name { IfOk result (λ file. file.name.items ≡ name.now) }
        ensures bytes { IfOk result (λ file. file.bytes.items ≡ []) }
        ensures room { IfOk result (λ file. file.room ≡ room) }
    {
        Ok(File {
            name: Vec::from_slice(alloc, name)?,
            bytes: Vec::with_capacity(alloc, room)?,
            room,
        })
    }

    // Gives it more room.
    pub fn grow(&mut self, more: usize) -> Result<(), NoMemory>
        ensures room { self.new.room ≡ self.old.room + (if is_ok result then more else 0) }
        ensures bytes { self.new.bytes.items ≡ self.old.bytes.items }
        ensures name { self.new.name.items ≡ self.old.name.items }
    {
        let Some(room) = self.room.checked_add(more) else {
            return Err(NoMemory);
        };
        self.bytes.reserve(room)?;
        self.room = room;
        Ok(())
    }

    // Appends from the front of these bytes what there is room for, and says how many it were.
    pub fn append(&mut self, bytes: &[u8], most: usize) -> usize
        ensures count { result ≡ min (min (length bytes.now) self.old.room) most }
        ensures bytes { self.new.bytes.items ≡ self.old.bytes.items ++ take result bytes.now }
        ensures room { self.new.room + result ≡ self.old.room }
        ensures name { self.new.name.items ≡ self.old.name.items }
    {
        let count = bytes.len().min(self.room).min(most);
        let Ok(()) = self.bytes.extend_from_slice(&bytes[..count]) else {
            unreachable!()
        };
        self.room -= count;
        count
    }
}

// A host in memory. A file that was sealed stays in `files` for good, so that a port reads on while a newer one takes its name.
ghost use Rattle.std.specs.Prelude.{◌≡◌, ◌<◌, ◌≤◌, ◌+◌, ◌-◌, ◌^◌, ◌&&◌, ◌||◌, ◌↔◌, ◌==◌, min, List, ℕ, [], ◌∷◌, ◌++◌, length, take, is_err, is_none, OnOk, OnErr, IfOk, IfSome, IfNone, IsTrue, Some, None, bytes_eq, vec_capacity};
ghost use Rattle.hrt_base.specs.Calls.{AtStart, NotRead, NotWritten, Opened, Started, Sealed, Taken, Sent};
ghost use Rattle.hrt_host.specs.Plan.{counted, fails_next, faults_after, first_room, entered, with_left};
ghost use Rattle.hrt_host.specs.Seat.{all_below, writers, is_writing};

use crate::count::{fails, fault, place};
use crate::file::File;
use crate::rooms::{Room, take_room};
use crate::seat::{
    Seat, Stand, add, append, blank_seat, bytes, enter, find, finish, is_written_as, open, sent,
    take, widen,
};
use hrt_base::{Begun, Failed, Host, NoMemory, Port};
use std::alloc::Global;

/// Files and ports in memory, for tests. It fails where it is told to.
#[derive(Drop)]
pub struct MemoryHost {
    alloc: Global,
    files: Vec<File>,
    rooms: Vec<Room>,
    seats: [Seat; 7],
    failing: Vec<u64>,
    calls: u64,
    read_faults: u64,
    write_faults: u64,
    most: usize,
    ghost some: { 0 < most },
    ghost below: { IsTrue (all_below (length files.items) seats) },
    // a place is kept for each file that may still be sealed
    ghost slots: { length files.items + (length rooms.items + writers seats) ≤ vec_capacity files },
}

#[tactic(auto, unfolding(crate::specs::Memory::memory_world, crate::specs::Memory::memory_plan))]
impl MemoryHost {
    ghost use Rattle.hrt_host.specs.Memory.{memory_world, memory_plan, with_file, given};

    /// No file, no room, no call that fails, and no limit to what a call moves.
    pub fn new(alloc: Global) -> MemoryHost
        ensures start { AtStart (Unit {0}) (memory_world result) }
        ensures file { (name : List ℕ) → (memory_world result).content.file name ≡ None }
        ensures read_faults { (memory_world result).read_faults ≡ 0 }
        ensures write_faults { (memory_world result).write_faults ≡ 0 }
        ensures calls { (memory_plan result).calls ≡ 0 }
        ensures failing { (memory_plan result).failing ≡ [] }
        ensures most { (memory_plan result).most ≡ usize.MAX }
        ensures rooms { (memory_plan result).rooms ≡ [] }
        ensures left { (p : Port) → (memory_plan result).left p ≡ 0 }
    {
        MemoryHost {
            alloc,
            files: Vec::new(alloc),
            rooms: Vec::new(alloc),
            seats: [
                blank_seat(alloc, Stand::Idle),
                blank_seat(alloc, Stand::Idle),
                blank_seat(alloc, Stand::Idle),
                blank_seat(alloc, Stand::Idle),
                blank_seat(alloc, Stand::Writing),
                blank_seat(alloc, Stand::Idle),
                blank_seat(alloc, Stand::Idle),
            ],
            failing: Vec::new(alloc),
            calls: 0,
            read_faults: 0,
            write_faults: 0,
            most: usize::MAX,
        }
    }

    /// Puts a file in the place of one of its name.
    pub fn put_file(&mut self, name: &str, bytes: &[u8]) -> Result<(), NoMemory>
        ensures file { OnOk result ((memory_world self.new).content ≡ with_file name.now bytes.now (memory_world self.old).content) }
        ensures begun { (memory_world self.new).begun ≡ (memory_world self.old).begun }
        ensures read_faults { (memory_world self.new).read_faults ≡ (memory_world self.old).read_faults }
        ensures write_faults { (memory_world self.new).write_faults ≡ (memory_world self.old).write_faults }
        ensures err { OnErr result ((memory_world self.new).content ≡ (memory_world self.old).content) }
        ensures plan { memory_plan self.new ≡ memory_plan self.old }
    {
        let file = File::whole(self.alloc, name.as_bytes(), bytes)?;
        // A place for each room, for each of the 7 ports and for this file.
        self.files.reserve(self.rooms.len() + 8)?;
        let added = add(&mut self.files, file);
        added
    }

    /// Takes the memory for what a port writes under a name: more of what it is writing, or the next that it begins.
    pub fn give_room(&mut self, port: Port, name: &str, bytes: usize) -> Result<(), NoMemory>
        ensures world { memory_world self.new ≡ memory_world self.old }
        ensures ok { OnOk result (memory_plan self.new ≡ given port name.now bytes (memory_world self.old) (memory_plan self.old)) }
        ensures err { OnErr result (memory_plan self.new ≡ memory_plan self.old) }
    {
        if self.writes_as(port, name) {
            self.widen(port, bytes)?;
            return Ok(());
        }
        let file = File::with_room(self.alloc, name.as_bytes(), bytes)?;
        // A place for each room, for each of the 7 ports and for this file.
        self.files.reserve(self.rooms.len() + 8)?;
        self.rooms.push(Room { port, file })?;
        Ok(())
    }

    // Whether a port is begun for writing under a name.
    fn writes_as(&self, port: Port, name: &str) -> bool
        ensures { result ≡ (is_writing ((memory_world self.now).begun port) && bytes_eq ((memory_world self.now).content.name port) name.now) }
    {
        is_written_as(&self.seats[place(port)], name.as_bytes())
    }

    // Gives more room to a port that is begun for writing.
    fn widen(&mut self, port: Port, more: usize) -> Result<(), NoMemory>
        requires { (memory_world self.old).begun port ≡ Begun.Writing }
        ensures world { memory_world self.new ≡ memory_world self.old }
        ensures ok { OnOk result (memory_plan self.new ≡ with_left port ((memory_plan self.old).left port + more) (memory_plan self.old)) }
        ensures err { OnErr result (memory_plan self.new ≡ memory_plan self.old) }
    {
        widen(&mut self.seats[place(port)], more)?;
        Ok(())
    }

    /// The call of this number fails. The calls of `Host` are counted together, from 1.
    pub fn fail_at(&mut self, call: u64) -> Result<(), NoMemory>
        ensures world { memory_world self.new ≡ memory_world self.old }
        ensures ok { OnOk result (memory_plan self.new ≡ record (memory_plan self.old) { failing = (memory_plan self.old).failing ++ call ∷ [] }) }
        ensures err { OnErr result (memory_plan self.new ≡ memory_plan self.old) }
    {
        self.failing.push(call)?;
        Ok(())
    }

    /// From now on one read or write moves at most so many bytes.
    pub fn piece(&mut self, most: usize)
        requires { 0 < most }
        ensures world { memory_world self.new ≡ memory_world self.old }
        ensures plan { memory_plan self.new ≡ record (memory_plan self.old) { most = most } }
    {
        self.most = most;
    }

    /// What was written on a port since it was last begun for writing.
    pub fn sent(&self, port: Port) -> &[u8]
        ensures { result.now ≡ (memory_world self.now).content.sent port }
    {
        sent(&self.files, &self.seats[place(port)])
    }

    /// The bytes of a named file.
    pub fn file(&self, name: &str) -> Option<&[u8]>
        ensures some { IfSome result (λ bytes. (memory_world self.now).content.file name.now ≡ Some bytes.now) }
        ensures none { IfNone result ((memory_world self.now).content.file name.now ≡ None) }
    {
        let k = find(&self.files, name.as_bytes())?;
        Some(bytes(&self.files, k))
    }

    /// How many calls have failed, or the greatest u64 where they are more.
    pub fn faults(&self) -> u64
        ensures { result ≡ min ((memory_world self.now).read_faults + (memory_world self.now).write_faults) (2 ^ 64 - 1) }
    {
        self.read_faults.saturating_add(self.write_faults)
    }
}

#[tactic(auto, unfolding(crate::specs::Memory::memory_world, crate::specs::Memory::memory_plan))]
impl Host for MemoryHost {
    ghost use Rattle.hrt_host.specs.Memory.{memory_world, memory_plan};

    ghost told = { Unit {0} };

    ghost world = { memory_world };

    fn begin_read(&mut self, port: Port, name: &str) -> Result<(), Failed>
        requires { (memory_world self.old).begun port ≡ Begun.Idle }
        ensures opened { OnOk result (Opened (Unit {0}) port name.now (memory_world self.old) (memory_world self.new)) }
        ensures failed { OnErr result (NotRead (Unit {0}) (memory_world self.old) (memory_world self.new)) }
        ensures fails { is_err result ≡ (fails_next (memory_plan self.old) || is_none ((memory_world self.old).content.file name.now)) }
        ensures counts { (memory_world self.new).read_faults ≡ faults_after (is_err result) (memory_world self.old).read_faults }
        ensures plan { memory_plan self.new ≡ counted (memory_plan self.old) }
    {
        if fails(&mut self.calls, &self.failing) {
            return Err(fault(&mut self.read_faults));
        }
        let Some(file) = find(&self.files, name.as_bytes()) else {
            return Err(fault(&mut self.read_faults));
        };
        open(&mut self.seats[place(port)], file);
        Ok(())
    }

    fn read(&mut self, port: Port, buffer: &mut [u8]) -> Result<usize, Failed>
        requires begun { (memory_world self.old).begun port ≡ Begun.Reading }
        requires room { 0 < length buffer.old }
        ensures count { IfOk result (λ n. n ≤ length buffer.new) }
        ensures taken { IfOk result (λ n. Taken (Unit {0}) port (take n buffer.new) (memory_world self.old) (memory_world self.new)) }
        ensures end { Unit {0} → IfOk result (λ n. (n ≡ 0) ↔ ((memory_world self.old).content.rest port ≡ [])) }
        ensures failed { OnErr result (NotRead (Unit {0}) (memory_world self.old) (memory_world self.new)) }
        ensures kept { OnErr result (buffer.new ≡ buffer.old) }
        ensures moves { IfOk result (λ n. n ≡ min (min (length ((memory_world self.old).content.rest port)) (length buffer.new)) (memory_plan self.old).most) }
        ensures fails { is_err result ≡ fails_next (memory_plan self.old) }
        ensures counts { (memory_world self.new).read_faults ≡ faults_after (is_err result) (memory_world self.old).read_faults }
        ensures plan { memory_plan self.new ≡ counted (memory_plan self.old) }
    {
        if fails(&mut self.calls, &self.failing) {
            return Err(fault(&mut self.read_faults));
        }
        let most = self.most;
        let seat = &mut self.seats[place(port)];
        Ok(take(&self.files, seat, buffer, most))
    }

    fn begin_write(&mut self, port: Port, name: &str) -> Result<(), Failed>
        requires { (memory_world self.old).begun port ≡ Begun.Idle }
        ensures started { OnOk result (Started (Unit {0}) port name.now (memory_world self.old) (memory_world self.new)) }
        ensures failed { OnErr result (NotWritten (Unit {0}) (memory_world self.old) (memory_world self.new)) }
        ensures fails { is_err result ≡ (fails_next (memory_plan self.old) || is_none (first_room port name.now (memory_plan self.old).rooms)) }
        ensures counts { (memory_world self.new).write_faults ≡ faults_after (is_err result) (memory_world self.old).write_faults }
        ensures entered { OnOk result (memory_plan self.new ≡ entered port name.now (counted (memory_plan self.old))) }
        ensures same { OnErr result (memory_plan self.new ≡ counted (memory_plan self.old)) }
    {
        if fails(&mut self.calls, &self.failing) {
            return Err(fault(&mut self.write_faults));
        }
        let Some(file) = take_room(&mut self.rooms, port, name.as_bytes()) else {
            return Err(fault(&mut self.write_faults));
        };
        enter(&mut self.seats[place(port)], file);
        Ok(())
    }

    fn write(&mut self, port: Port, bytes: &[u8]) -> Result<usize, Failed>
        requires begun { (memory_world self.old).begun port ≡ Begun.Writing }
        requires some { 0 < length bytes.now }
        ensures count { IfOk result (λ n. (0 < n) × (n ≤ length bytes.now)) }
        ensures sent { IfOk result (λ n. Sent (Unit {0}) port (take n bytes.now) (memory_world self.old) (memory_world self.new)) }
        ensures failed { OnErr result (NotWritten (Unit {0}) (memory_world self.old) (memory_world self.new)) }
        ensures moves { IfOk result (λ n. n ≡ min (min (length bytes.now) ((memory_plan self.old).left port)) (memory_plan self.old).most) }
        ensures fails { is_err result ≡ (fails_next (memory_plan self.old) || ((memory_plan self.old).left port == 0)) }
        ensures counts { (memory_world self.new).write_faults ≡ faults_after (is_err result) (memory_world self.old).write_faults }
        ensures left { IfOk result (λ n. memory_plan self.new ≡ with_left port ((memory_plan self.old).left port - n) (counted (memory_plan self.old))) }
        ensures same { OnErr result (memory_plan self.new ≡ counted (memory_plan self.old)) }
    {
        if fails(&mut self.calls, &self.failing) {
            return Err(fault(&mut self.write_faults));
        }
        let at = place(port);
        if self.seats[at].file.room == 0 {
            return Err(fault(&mut self.write_faults));
        }
        let most = self.most;
        Ok(append(&mut self.seats[at], bytes, most))
    }

    fn seal(&mut self, port: Port) -> Result<(), Failed>
        requires { (memory_world self.old).begun port ≡ Begun.Writing }
        ensures sealed { OnOk result (Sealed (Unit {0}) port (memory_world self.old) (memory_world self.new)) }
        ensures failed { OnErr result (NotWritten (Unit {0}) (memory_world self.old) (memory_world self.new)) }
        ensures fails { is_err result ≡ fails_next (memory_plan self.old) }
        ensures counts { (memory_world self.new).write_faults ≡ faults_after (is_err result) (memory_world self.old).write_faults }
        ensures left { OnOk result (memory_plan self.new ≡ with_left port 0 (counted (memory_plan self.old))) }
        ensures same { OnErr result (memory_plan self.new ≡ counted (memory_plan self.old)) }
    {
        if fails(&mut self.calls, &self.failing) {
            return Err(fault(&mut self.write_faults));
        }
        let alloc = self.alloc;
        let seat = &mut self.seats[place(port)];
        finish(alloc, seat, &mut self.files);
        Ok(())
    }
}

#[cfg(test)]
mod tests {
    use super::MemoryHost;
    use hrt_base::{Host, Port, read_all, write_all};
    use std::test::Fail;

    #[test]
    fn keeps_files(rt: HostRuntime) -> Result<(), Fail> {
        let alloc = rt.alloc();
        let mut host = MemoryHost::new(alloc);
        host.put_file("in", b"one")?;
        host.put_file("in", b"two words")?;
        host.give_room(Port::Model, "out", 20)?;
        host.piece(4);
        host.begin_read(Port::Instance, "in")?;
        let bytes = read_all(alloc, &mut host, Port::Instance, 9)?;
        assert_eq!(rt; bytes.as_slice(), b"two words".as_slice());
        host.begin_write(Port::Model, "out")?;
        write_all(&mut host, Port::Model, &bytes)?;
        assert!(rt; host.file("out").is_none());
        host.seal(Port::Model)?;
        assert_eq!(rt; host.file("out"), Some(b"two words".as_slice()));
        assert_eq!(rt; host.sent(Port::Model), b"two words".as_slice());
        assert_eq!(rt; host.faults(), 0);
        Ok(())
    }

    #[test]
    fn fails_where_it_is_told_to(rt: HostRuntime) -> Result<(), Fail> {
        let mut host = MemoryHost::new(rt.alloc());
        host.give_room(Port::Report, "", 3)?;
        host.fail_at(2)?;
        assert_eq!(rt; host.write(Port::Report, b"ab"), Ok(2));
        assert!(rt; host.write(Port::Report, b"cd").is_err());
        assert_eq!(rt; host.write(Port::Report, b"cd"), Ok(1));
        assert!(rt; host.write(Port::Report, b"d").is_err());
        assert_eq!(rt; host.sent(Port::Report), b"abc".as_slice());
        assert!(rt; host.begin_read(Port::Pairs, "absent").is_err());
        assert!(rt; host.begin_write(Port::Proof, "no room").is_err());
        assert_eq!(rt; host.faults(), 4);
        host.seal(Port::Report)?;
        assert_eq!(rt; host.sent(Port::Report), b"abc".as_slice());
        Ok(())
    }
}

// The real host. It tells no names and no bytes.
ghost use Rattle.std.specs.Prelude.{◌≡◌, ◌<◌, ◌≤◌, ◌↔◌, [], length, take, is_err, IfOk, OnOk, OnErr};
ghost use Rattle.hrt_base.specs.Calls.{AtStart, NotRead, NotWritten, Opened, Started, Sealed, Taken, Sent};
ghost use Rattle.hrt_host.specs.Plan.{faults_after};

use crate::count::{fault, place};
use crate::gate::{Door, Gate, at_door, leave, reading, shut};
use crate::output::begin_output;
use hrt_base::{Begun, Failed, Host, Port};

/// Files and standard output.
pub struct RealHost {
    rt: HostRuntime,
    gates: [Gate; 7],
    read_faults: u64,
    write_faults: u64,
}

// What a run leaves unfinished is removed.
impl Drop for RealHost {
    fn drop(self) {
        let RealHost {
            rt,
            gates,
            read_faults: _,
            write_faults: _,
        } = self;
        for gate in gates {
            leave(&rt, gate);
        }
    }
}

#[tactic(auto, unfolding(crate::specs::Real::real_world))]
impl RealHost {
    ghost use Rattle.hrt_base.specs.declared.port.Port.{Port};
    ghost use Rattle.hrt_host.specs.Real.{real_world};

    /// No port is begun but the report, which is standard output.
    pub fn new(rt: HostRuntime) -> RealHost
        ensures start { AtStart ⊥ (real_world result) }
        ensures read_faults { (real_world result).read_faults ≡ 0 }
        ensures write_faults { (real_world result).write_faults ≡ 0 }
    {
        RealHost {
            rt,
            gates: [
                shut(),
                shut(),
                shut(),
                shut(),
                at_door(Door::Printing),
                shut(),
                shut(),
            ],
            read_faults: 0,
            write_faults: 0,
        }
    }
}

#[tactic(auto, using(crate::proofs::Entrance::gate_set, crate::proofs::Entrance::gate_kept), unfolding(crate::specs::Real::real_world))]
impl Host for RealHost {
    ghost use Rattle.hrt_host.specs.Real.{real_world};

    ghost told = { ⊥ };

    ghost world = { real_world };

    fn begin_read(&mut self, port: Port, name: &str) -> Result<(), Failed>
        requires { (real_world self.old).begun port ≡ Begun.Idle }
        ensures opened { OnOk result (Opened ⊥ port name.now (real_world self.old) (real_world self.new)) }
        ensures failed { OnErr result (NotRead ⊥ (real_world self.old) (real_world self.new)) }
        ensures counts { (real_world self.new).read_faults ≡ faults_after (is_err result) (real_world self.old).read_faults }
    {
        let Some(gate) = reading(&self.rt, name) else {
            return Err(fault(&mut self.read_faults));
        };
        self.gates[place(port)] = gate;
        Ok(())
    }

    fn read(&mut self, port: Port, buffer: &mut [u8]) -> Result<usize, Failed>
        requires begun { (real_world self.old).begun port ≡ Begun.Reading }
        requires room { 0 < length buffer.old }
        ensures count { IfOk result (λ n. n ≤ length buffer.new) }
        ensures taken { IfOk result (λ n. Taken ⊥ port (take n buffer.new) (real_world self.old) (real_world self.new)) }
        ensures end { ⊥ → IfOk result (λ n. (n ≡ 0) ↔ ((real_world self.old).content.rest port ≡ [])) }
        ensures failed { OnErr result (NotRead ⊥ (real_world self.old) (real_world self.new)) }
        ensures counts { (real_world self.new).read_faults ≡ faults_after (is_err result) (real_world self.old).read_faults }
    {
        let moved = self.gates[place(port)].read(buffer);
        match moved {
            Some(count) => Ok(count),
            None => Err(fault(&mut self.read_faults)),
        }
    }

    fn begin_write(&mut self, port: Port, name: &str) -> Result<(), Failed>
        requires { (real_world self.old).begun port ≡ Begun.Idle }
        ensures started { OnOk result (Started ⊥ port name.now (real_world self.old) (real_world self.new)) }
        ensures failed { OnErr result (NotWritten ⊥ (real_world self.old) (real_world self.new)) }
        ensures counts { (real_world self.new).write_faults ≡ faults_after (is_err result) (real_world self.old).write_faults }
    {
        let at = place(port);
        let Some(gate) = begin_output(&self.rt, &self.gates, at, name) else {
            return Err(fault(&mut self.write_faults));
        };
        self.gates[at] = gate;
        Ok(())
    }

    fn write(&mut self, port: Port, bytes: &[u8]) -> Result<usize, Failed>
        requires begun { (real_world self.old).begun port ≡ Begun.Writing }
        requires some { 0 < length bytes.now }
        ensures count { IfOk result (λ n. (0 < n) × (n ≤ length bytes.now)) }
        ensures sent { IfOk result (λ n. Sent ⊥ port (take n bytes.now) (real_world self.old) (real_world self.new)) }
        ensures failed { OnErr result (NotWritten ⊥ (real_world self.old) (real_world self.new)) }
        ensures whole { IfOk result (λ n. n ≡ length bytes.now) }
        ensures counts { (real_world self.new).write_faults ≡ faults_after (is_err result) (real_world self.old).write_faults }
    {
        let gate = &mut self.gates[place(port)];
        let written = gate.write(&self.rt, bytes);
        if !written {
            return Err(fault(&mut self.write_faults));
        }
        Ok(bytes.len())
    }

    fn seal(&mut self, port: Port) -> Result<(), Failed>
        requires { (real_world self.old).begun port ≡ Begun.Writing }
        ensures sealed { OnOk result (Sealed ⊥ port (real_world self.old) (real_world self.new)) }
        ensures failed { OnErr result (NotWritten ⊥ (real_world self.old) (real_world self.new)) }
        ensures counts { (real_world self.new).write_faults ≡ faults_after (is_err result) (real_world self.old).write_faults }
    {
        let gate = &mut self.gates[place(port)];
        let closed = gate.close(&self.rt);
        if !closed {
            return Err(fault(&mut self.write_faults));
        }
        Ok(())
    }
}

#[cfg(test)]
mod tests {
    use super::RealHost;
    use hrt_base::{Host, Port, read_all, write_all};
    use std::fs;
    use std::os::unix::fs::symlink;
    use std::test::Fail;

    #[test]
    fn writes_and_reads_a_file(rt: HostRuntime) -> Result<(), Fail> {
        let alloc = rt.alloc();
        let mut host = RealHost::new(rt);
        host.begin_write(Port::Model, "written_by_test")?;
        write_all(&mut host, Port::Model, b"two words")?;
        host.seal(Port::Model)?;
        host.begin_read(Port::Instance, "written_by_test")?;
        let bytes = read_all(alloc, &mut host, Port::Instance, 100)?;
        assert_eq!(rt; bytes.as_slice(), b"two words".as_slice());
        assert!(rt; host.begin_read(Port::Pairs, "no_such_file").is_err());
        Ok(())
    }

    // Whether a file has these bytes.
    fn has(rt: &HostRuntime, name: &str, bytes: &[u8]) -> bool {
        fs::read(rt, name).is_ok_and(|found| found.as_slice() == bytes)
    }

    // How many entries a folder has.
    fn entries(rt: &HostRuntime, folder: &str) -> Result<usize, Fail> {
        let mut count: usize = 0;
        for entry in fs::read_dir(rt, folder)? {
            entry?;
            count = count.saturating_add(1);
        }
        Ok(count)
    }

    #[test]
    fn keeps_a_file_until_the_new_one_is_whole(rt: HostRuntime) -> Result<(), Fail> {
        fs::create_dir(&rt, "kept_by_test")?;
        fs::write(&rt, "kept_by_test/m", b"before")?;
        let mut host = RealHost::new(rt);
        host.begin_write(Port::Model, "kept_by_test/m")?;
        write_all(&mut host, Port::Model, b"half")?;
        assert!(rt; has(&rt, "kept_by_test/m", b"before"));
        assert!(rt;
            host.begin_write(Port::Proof, "kept_by_test/absent/p")
                .is_err()
        );
        assert!(rt; has(&rt, "kept_by_test/m", b"before"));
        drop(host);
        assert!(rt; has(&rt, "kept_by_test/m", b"before"));
        assert_eq!(rt; entries(&rt, "kept_by_test")?, 1);
        let mut host = RealHost::new(rt);
        host.begin_write(Port::Model, "kept_by_test/m")?;
        write_all(&mut host, Port::Model, b"after")?;
        host.seal(Port::Model)?;
        assert!(rt; has(&rt, "kept_by_test/m", b"after"));
        drop(host);
        assert_eq!(rt; entries(&rt, "kept_by_test")?, 1);
        Ok(())
    }

    #[test]
    fn tells_one_file_under_two_names(rt: HostRuntime) -> Result<(), Fail> {
        fs::write(&rt, "one_by_test", b"before")?;
        symlink(&rt, "one_by_test", "link_by_test")?;
        fs::hard_link(&rt, "one_by_test", "other_by_test")?;
        let mut host = RealHost::new(rt);
        host.begin_read(Port::Instance, "one_by_test")?;
        assert!(rt; host.begin_write(Port::Model, "one_by_test").is_err());
        assert!(rt; host.begin_write(Port::Model, "./one_by_test").is_err());
        assert!(rt; host.begin_write(Port::Model, "link_by_test").is_err());
        assert!(rt; host.begin_write(Port::Model, "other_by_test").is_err());
        host.begin_write(Port::Model, "new_by_test")?;
        assert!(rt; host.begin_write(Port::Proof, "./new_by_test").is_err());
        host.seal(Port::Model)?;
        assert!(rt; host.begin_write(Port::Proof, "new_by_test").is_err());
        assert!(rt; has(&rt, "one_by_test", b"before"));
        Ok(())
    }

    #[test]
    fn replaces_what_a_link_means(rt: HostRuntime) -> Result<(), Fail> {
        fs::write(&rt, "meant_by_test", b"before")?;
        symlink(&rt, "meant_by_test", "means_by_test")?;
        symlink(&rt, "none_by_test", "dangling_by_test")?;
        let mut host = RealHost::new(rt);
        host.begin_write(Port::Model, "means_by_test")?;
        host.begin_write(Port::Proof, "dangling_by_test")?;
        write_all(&mut host, Port::Model, b"after")?;
        host.seal(Port::Model)?;
        host.seal(Port::Proof)?;
        assert!(rt; has(&rt, "meant_by_test", b"after"));
        assert!(rt; has(&rt, "none_by_test", b""));
        assert!(rt; fs::symlink_metadata(&rt, "means_by_test")?.is_symlink());
        assert!(rt; fs::symlink_metadata(&rt, "dangling_by_test")?.is_symlink());
        Ok(())
    }

    #[test]
    fn writes_a_device_as_it_is(rt: HostRuntime) -> Result<(), Fail> {
        let mut host = RealHost::new(rt);
        host.begin_write(Port::Model, "/dev/null")?;
        host.begin_write(Port::Proof, "/dev/full")?;
        write_all(&mut host, Port::Model, b"lost")?;
        assert!(rt; write_all(&mut host, Port::Proof, b"lost").is_err());
        host.seal(Port::Model)?;
        assert!(rt; !fs::metadata(&rt, "/dev/null")?.is_file());
        Ok(())
    }
}

ghost use Rattle.std.specs.Prelude.{◌≡◌, ◌<◌, ◌≤◌, ◌↔◌, [], length, take, IfOk, OnOk, OnErr};
ghost use Rattle.hrt_base.specs.World.{World};
ghost use Rattle.hrt_base.specs.Calls.{NotRead, NotWritten, Opened, Started, Sealed, Taken, Sent};

use crate::{Failed, Port};

/// How a port stands.
#[derive(Clone, Copy, Debug, PartialEq, Eq)]
pub enum Begun {
    Idle,
    Reading,
    Writing,
}

/// What the program reads and writes.
pub trait Host {
    /// That the host tells names, files and bytes.
    ghost told: { Type 0 };

    /// The faults, the ports and, where they are told, the names, the files and the bytes.
    ghost world: { Self → World };

    /// Begins a port for reading a file from its front.
    fn begin_read(&mut self, port: Port, name: &str) -> Result<(), Failed>
        requires { (world self.old).begun port ≡ Begun.Idle }
        ensures opened { OnOk result (Opened told port name.now (world self.old) (world self.new)) }
        ensures failed { OnErr result (NotRead told (world self.old) (world self.new)) };

    /// Takes bytes from the front of what is left on the port; none only at the end.
    fn read(&mut self, port: Port, buffer: &mut [u8]) -> Result<usize, Failed>
        requires begun { (world self.old).begun port ≡ Begun.Reading }
        requires room { 0 < length buffer.old }
        ensures count { IfOk result (λ n. n ≤ length buffer.new) }
        ensures taken { IfOk result (λ n. Taken told port (take n buffer.new) (world self.old) (world self.new)) }
        ensures end { told → IfOk result (λ n. (n ≡ 0) ↔ ((world self.old).content.rest port ≡ [])) }
        ensures failed { OnErr result (NotRead told (world self.old) (world self.new)) };

    /// Begins a port for writing under a name.
    fn begin_write(&mut self, port: Port, name: &str) -> Result<(), Failed>
        requires { (world self.old).begun port ≡ Begun.Idle }
        ensures started { OnOk result (Started told port name.now (world self.old) (world self.new)) }
        ensures failed { OnErr result (NotWritten told (world self.old) (world self.new)) };

    /// Writes bytes from the front of these, at least one.
    fn write(&mut self, port: Port, bytes: &[u8]) -> Result<usize, Failed>
        requires begun { (world self.old).begun port ≡ Begun.Writing }
        requires some { 0 < length bytes.now }
        ensures count { IfOk result (λ n. (0 < n) × (n ≤ length bytes.now)) }
        ensures sent { IfOk result (λ n. Sent told port (take n bytes.now) (world self.old) (world self.new)) }
        ensures failed { OnErr result (NotWritten told (world self.old) (world self.new)) };

    /// Ends the writing: what was sent becomes the file of the port's name.
    fn seal(&mut self, port: Port) -> Result<(), Failed>
        requires { (world self.old).begun port ≡ Begun.Writing }
        ensures sealed { OnOk result (Sealed told port (world self.old) (world self.new)) }
        ensures failed { OnErr result (NotWritten told (world self.old) (world self.new)) };
}

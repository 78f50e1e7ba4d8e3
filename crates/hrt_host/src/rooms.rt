// The rooms that were given to a host in memory and that no port has begun yet.
ghost use Rattle.std.specs.Prelude.{◌≡◌, ◌+◌, [], map, length, IfSome, IfNone, Some, None};
ghost use Rattle.hrt_host.specs.Plan.{is_for, first_room, other_rooms};
ghost use Rattle.hrt_host.specs.Rooms.{room_for};

use crate::count::place;
use crate::file::File;
use hrt_base::Port;

// What a port will write, with nothing written.
#[derive(Drop)]
pub struct Room {
    pub port: Port,
    pub file: File,
}

fn suits(room: &Room, port: Port, name: &[u8]) -> bool
    ensures { result ≡ is_for port name.now (room_for room.now) }
{
    place(room.port) == place(port) && room.file.name.as_slice() == name
}

// Takes out the first room for a port and a name.
pub fn take_room(rooms: &mut Vec<Room>, port: Port, name: &[u8]) -> Option<File>
    ensures name { IfSome result (λ file. file.name.items ≡ name.now) }
    ensures empty { IfSome result (λ file. file.bytes.items ≡ []) }
    ensures room { IfSome result (λ file. first_room port name.now (map room_for rooms.old.items) ≡ Some file.room) }
    ensures rest { IfSome result (λ file. map room_for rooms.new.items ≡ other_rooms port name.now (map room_for rooms.old.items)) }
    ensures fewer { IfSome result (λ file. length rooms.new.items + 1 ≡ length rooms.old.items) }
    ensures none { IfNone result (first_room port name.now (map room_for rooms.old.items) ≡ None) }
    ensures same { IfNone result (rooms.new.items ≡ rooms.old.items) }
{
    for k in 0..rooms.len() {
        if suits(&rooms[k], port, name) {
            let mut file = rooms.remove(k).file;
            file.bytes.clear();
            return Some(file);
        }
    }
    None
}

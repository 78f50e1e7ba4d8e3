// A port of a host in memory.
ghost use Rattle.std.specs.Prelude.{MatchBool, ◌≡◌, ◌≢◌, ◌<◌, ◌≤◌, ◌+◌, ◌++◌, ◌&&◌, min, is_ok, if◌then◌else◌, [], ◌∷◌, OnOk, OnErr, length, take, drop, bytes_eq, MatchOption, Some, None, vec_capacity};
ghost use Rattle.hrt_host.specs.Seat.{answer, sent_by, file_of, bytes_at, begun_of, is_writing, rest_of, StandsAs, Grown, Roomier, Finished};

use crate::file::File;
use hrt_base::NoMemory;
use std::alloc::Global;
use std::mem;

#[derive(Drop)]
pub enum Stand {
    Idle,
    Reading { file: usize, taken: usize },
    Writing,
}

// What was written since the port was last begun for writing stands in `file`, until it becomes a named file at `sealed_at`.
#[derive(Drop)]
pub struct Seat {
    pub stand: Stand,
    pub file: File,
    pub sealed_at: Option<usize>,
}

// Nothing is written yet, and there is no room to write.
pub fn blank_seat(alloc: Global, stand: Stand) -> Seat
    ensures stand { result.stand ≡ stand }
    ensures name { result.file.name.items ≡ [] }
    ensures bytes { result.file.bytes.items ≡ [] }
    ensures room { result.file.room ≡ 0 }
    ensures sealed_at { result.sealed_at ≡ None }
{
    Seat {
        stand,
        file: File::blank(alloc),
        sealed_at: None,
    }
}

// Begins reading a file.
pub fn open(seat: &mut Seat, file: usize)
    ensures stand { seat.new.stand ≡ Stand.Reading file 0 }
    ensures file { seat.new.file ≡ seat.old.file }
    ensures sealed_at { seat.new.sealed_at ≡ seat.old.sealed_at }
{
    seat.stand = Stand::Reading { file, taken: 0 };
}

// Begins writing.
pub fn enter(seat: &mut Seat, file: File)
    ensures stand { seat.new.stand ≡ Stand.Writing }
    ensures file { seat.new.file ≡ file }
    ensures sealed_at { seat.new.sealed_at ≡ None }
{
    seat.stand = Stand::Writing;
    seat.file = file;
    seat.sealed_at = None;
}

// Whether it is begun for writing under a name.
pub fn is_written_as(seat: &Seat, name: &[u8]) -> bool
    ensures { result ≡ (is_writing (begun_of seat.now.stand) && bytes_eq seat.now.file.name.items name.now) }
{
    matches!(seat.stand, Stand::Writing) && seat.file.name.as_slice() == name
}

// Gives more room to what it writes.
pub fn widen(seat: &mut Seat, more: usize) -> Result<(), NoMemory>
    ensures { Roomier (if is_ok result then more else 0) seat.old seat.new }
{
    seat.file.grow(more)
}

// Whether a file has this name, which is not empty.
fn answers(file: &File, name: &[u8]) -> bool
    ensures { MatchBool result (answer file.now name.now ≡ Some file.now.bytes.items) (answer file.now name.now ≡ None) }
{
    !file.name.is_empty() && file.name.as_slice() == name
}

// The newest file of a name.
#[tactic(auto, using(crate::proofs::Places::file_of_next))]
pub fn find(files: &[File], name: &[u8]) -> Option<usize>
    ensures { MatchOption result (file_of files.now name.now ≡ None) (λ k. (k < length files.now) × (file_of files.now name.now ≡ Some (bytes_at files.now k))) }
{
    let mut found = None;
    for k in 0..files.len() {
        if answers(&files[k], name) {
            found = Some(k);
        }
    }
    found
}

// Copies bytes from a place on, as many as fit, and moves the place on.
fn copy_on(bytes: &[u8], taken: &mut usize, buffer: &mut [u8], most: usize) -> usize
    ensures count { result ≡ min (min (length (drop taken.old bytes.now)) (length buffer.new)) most }
    ensures front { drop taken.old bytes.now ≡ take result buffer.new ++ drop taken.new bytes.now }
{
    if *taken >= bytes.len() {
        return 0;
    }
    let left = &bytes[*taken..];
    let count = left.len().min(buffer.len()).min(most);
    buffer[..count].copy_from_slice(&left[..count]);
    *taken += count;
    count
}

// Reads on, at a seat.
#[tactic(auto, using(crate::proofs::Places::at_place_get, crate::proofs::Places::at_place_past))]
pub fn take(files: &[File], seat: &mut Seat, buffer: &mut [u8], most: usize) -> usize
    ensures count { result ≡ min (min (length (rest_of files.now seat.old.stand)) (length buffer.new)) most }
    ensures front { rest_of files.now seat.old.stand ≡ take result buffer.new ++ rest_of files.now seat.new.stand }
    ensures same { StandsAs seat.old seat.new }
{
    let Stand::Reading { file, taken } = &mut seat.stand else {
        return 0;
    };
    if *file >= files.len() {
        return 0;
    }
    copy_on(&files[*file].bytes, taken, buffer, most)
}

// Appends what there is room for.
pub fn append(seat: &mut Seat, bytes: &[u8], most: usize) -> usize
    ensures count { result ≡ min (min (length bytes.now) seat.old.file.room) most }
    ensures grown { Grown (take result bytes.now) seat.old seat.new }
{
    seat.file.append(bytes, most)
}

// Ends the writing. What has a name becomes the newest file, in a place that was kept for it.
pub fn finish(alloc: Global, seat: &mut Seat, files: &mut Vec<File>)
    requires kept { length seat.old.file.name.items ≢ 0 → length files.old.items < vec_capacity files.old }
    ensures finished { Finished seat.old seat.new files.old.items files.new.items }
    ensures capacity { vec_capacity files.old ≤ vec_capacity files.new }
{
    seat.stand = Stand::Idle;
    if seat.file.name.is_empty() {
        return;
    }
    let at = files.len();
    let file = mem::replace(&mut seat.file, File::blank(alloc));
    let Ok(()) = files.push(file) else {
        unreachable!()
    };
    seat.sealed_at = Some(at);
}

// What was written at a seat.
#[tactic(auto, using(crate::proofs::Places::at_place_get, crate::proofs::Places::at_place_past))]
pub fn sent<'a>(files: &'a [File], seat: &'a Seat) -> &'a [u8]
    ensures { result.now ≡ sent_by files.now seat.now }
{
    match seat.sealed_at {
        None => &seat.file.bytes,
        Some(k) => {
            if k < files.len() {
                &files[k].bytes
            } else {
                &[]
            }
        }
    }
}

// The bytes of the file at a place.
#[tactic(auto, using(crate::proofs::Places::at_place_get))]
pub fn bytes(files: &[File], k: usize) -> &[u8]
    requires { k < length files.now }
    ensures { result.now ≡ bytes_at files.now k }
{
    &files[k].bytes
}

// Adds the newest file.
pub fn add(files: &mut Vec<File>, file: File) -> Result<(), NoMemory>
    ensures added { OnOk result (files.new.items ≡ files.old.items ++ file ∷ []) }
    ensures err { OnErr result (files.new.items ≡ files.old.items) }
    ensures no_fewer { length files.old.items ≤ length files.new.items }
    ensures one_more { length files.new.items ≤ length files.old.items + 1 }
    ensures capacity { vec_capacity files.old ≤ vec_capacity files.new }
{
    files.push(file)?;
    Ok(())
}

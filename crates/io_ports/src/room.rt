//! Room for the first bytes that are put.

ghost use Rattle.std.specs.Prelude.{◌≡◌, IfOk};

use gopass_base::NoMemory;
use std::alloc::Global;
use std::marker::Model;

/// The first bytes of all that was put, up to a number that is fixed when the room is made.
#[derive(Drop)]
pub(crate) struct Room {
    room: usize,
    bytes: Vec<u8>,
    is_over: bool,
}

impl Model for Room {
    ghost use Rattle.std.specs.Prelude.{◌≤◌, vec_len, vec_capacity};
    ghost use Rattle.io_ports.specs.Kept.{Kept};

    ghost Value = { Kept };

    ghost view = { λ r. record { room = r.room; bytes = r.bytes.items; is_over = r.is_over } };

    ghost invariant = { λ r. (vec_len r.bytes ≤ r.room) × (r.room ≤ vec_capacity r.bytes) };
}

impl Room {
    ghost use Rattle.std.specs.Prelude.{◌≤◌, length};
    ghost use Rattle.io_ports.specs.Kept.{Kept, kept_with, empty_kept};

    /// Takes the memory for the room.
    pub(crate) fn new(alloc: Global, room: usize) -> Result<Room, NoMemory>
        ensures { IfOk result (λ r. r ≡ empty_kept room) }
    {
        Ok(Room {
            room,
            bytes: Vec::with_capacity(alloc, room)?,
            is_over: false,
        })
    }

    /// Keeps what fits, and drops the rest. It asks no memory.
    pub(crate) fn keep(&mut self, bytes: &[u8])
        ensures kept { self.new ≡ kept_with self.old bytes.now }
        ensures inside { length self.old.bytes ≤ self.old.room }
    {
        let free = self.room - self.bytes.len();
        self.is_over |= bytes.len() > free;
        let fitting = free.min(bytes.len());
        self.bytes.extend_from_slice(&bytes[..fitting]).unwrap();
    }

    pub(crate) fn bytes(&self) -> &[u8]
        ensures { result.now ≡ self.now.bytes }
    {
        &self.bytes
    }
}

// A buffer of which the first bytes are lent to a call, of as many as are asked for, on the heap. `bytes::lent` has it in an array.
use crate::script::place;
use anyhow::{Context, Result, ensure};
use std::alloc::Global;
use std::marker::Model;

#[derive(Drop)]
pub struct Lent {
    bytes: Vec<u8>,
    size: usize,
}

impl Model for Lent {
    ghost use Rattle.std.specs.Prelude.{List, ℕ, take, vec_len, ◌≤◌};

    ghost Value = { List ℕ };

    ghost view = { λ l. take l.size l.bytes.items };

    ghost invariant = { λ l. l.size ≤ vec_len l.bytes };
}

impl Lent {
    // So many equal bytes; how many of them are lent.
    pub fn new(alloc: Global, value: u8, room: usize, size: usize) -> Result<Self> {
        let bytes = vec![in alloc; value; room]?;
        ensure!(size <= room, "{size} bytes of {room}");
        Ok(Lent { bytes, size })
    }

    // From now on so many are lent.
    pub fn lend(&mut self, size: usize) -> Result<()> {
        let room = self.bytes.len();
        ensure!(size <= room, "{size} bytes of {room}");
        self.size = size;
        Ok(())
    }

    pub fn put(&mut self, at: usize, value: u8) -> Result<()> {
        *self.bytes.get_mut(at).context("past the buffer")? = value;
        Ok(())
    }

    // `AT BYTE`: a byte is put at a place.
    pub fn put_placed(&mut self, text: &str) -> Result<()> {
        let (at, value) = place(text)?;
        self.put(at, value)
    }

    pub fn get(&self) -> &[u8] {
        &self.bytes[..self.size]
    }

    pub fn get_mut(&mut self) -> &mut [u8] {
        &mut self.bytes[..self.size]
    }
}

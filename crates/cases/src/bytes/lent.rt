// A buffer of which the first bytes are lent to a call.
ghost use Rattle.std.specs.Prelude.{◌≡◌, ◌<◌, ◌≤◌, length};

use std::marker::Model;

#[derive(Drop)]
pub struct Lent<const ROOM: usize> {
    bytes: [u8; ROOM],
    // Whether there were as many as were to be lent. Beside the bytes: where padding follows them, a new buffer is copied into its bench.
    fits: bool,
    size: usize,
}

impl<const ROOM: usize> Model for Lent<ROOM> {
    ghost use Rattle.std.specs.Prelude.{List, ℕ, take, ◌≤◌};

    ghost Value = { List ℕ };

    ghost view = { λ l. take l.size l.bytes };

    ghost invariant = { λ l. l.size ≤ ROOM };
}

impl<const ROOM: usize> Lent<ROOM> {
    // Equal bytes; how many of them are lent.
    pub fn new(value: u8, size: usize) -> Self {
        let mut lent = Lent {
            bytes: [value; ROOM],
            size: 0,
            fits: true,
        };
        lent.lend(size);
        lent
    }

    // From now on so many are lent, none where there are fewer.
    pub fn lend(&mut self, size: usize)
        ensures within { size ≤ ROOM → length self.new ≡ size }
        ensures past { ROOM < size → length self.new ≡ 0 }
    {
        self.fits = size <= ROOM;
        self.size = if self.fits { size } else { 0 };
    }

    pub fn fits(&self) -> bool {
        self.fits
    }

    pub fn get(&self) -> &[u8]
        ensures { result.now ≡ self.now }
    {
        &self.bytes[..self.size]
    }

    pub fn get_mut(&mut self) -> &mut [u8] {
        &mut self.bytes[..self.size]
    }

    // The whole buffer, whatever is lent of it.
    pub fn whole(&self) -> &[u8] {
        &self.bytes
    }

    pub fn whole_mut(&mut self) -> &mut [u8] {
        &mut self.bytes
    }
}

// What would lie past the part is not written.
pub fn put(part: &mut [u8], at: usize, value: u8) {
    if let Some(place) = part.get_mut(at) {
        *place = value;
    }
}

// What a program writes, piece by piece, into an array, as far as there is room.
#![tactic(auto)]

ghost use Rattle.std.specs.Prelude.{◌≡◌, ℕ, ◌≤◌, List, [], ◌∷◌, replicate};
ghost use Rattle.out.specs.Written.{nothing, front, count, put_behind};

use std::marker::Model;

// The first len bytes are what was written.
#[derive(Drop)]
pub struct Out<const ROOM: usize> {
    bytes: [u8; ROOM],
    len: usize,
}

// Clauses see the bytes that were written.
impl<const ROOM: usize> Model for Out<ROOM> {
    ghost Value = { List ℕ };

    ghost view = { λ o. front o.len o.bytes };

    ghost invariant = { λ o. o.len ≤ ROOM };
}

impl<const ROOM: usize> Out<ROOM> {
    // Nothing is written yet.
    pub fn new() -> Self
        ensures { result ≡ nothing }
    {
        Out {
            bytes: [0; ROOM],
            len: 0,
        }
    }

    pub fn len(&self) -> usize
        ensures { result ≡ count self.now }
    {
        self.written().len()
    }

    pub fn written(&self) -> &[u8]
        ensures { result.now ≡ self.now }
    {
        &self.bytes[..self.len]
    }

    pub fn clear(&mut self)
        ensures { self.new ≡ nothing }
    {
        self.len = 0;
    }

    // Puts one byte, if there is room.
    pub fn byte(&mut self, b: u8)
        ensures { self.new ≡ put_behind ROOM self.old (b ∷ []) }
    {
        if self.len < ROOM {
            self.bytes[self.len] = b;
            self.len += 1;
        }
    }

    // Puts as many of the bytes as there is room for. The part is one of a slice, since none of an array with a const length is lent.
    pub fn bytes(&mut self, s: &[u8])
        ensures { self.new ≡ put_behind ROOM self.old s.now }
    {
        let n = (ROOM - self.len).min(s.len());
        let all = &mut self.bytes[..];
        all[self.len..self.len + n].copy_from_slice(&s[..n]);
        self.len += n;
    }

    // Puts one byte several times, as often as there is room.
    pub fn repeat(&mut self, b: u8, times: usize)
        ensures { self.new ≡ put_behind ROOM self.old (replicate times b) }
    {
        let n = (ROOM - self.len).min(times);
        let all = &mut self.bytes[..];
        all[self.len..self.len + n].fill(b);
        self.len += n;
    }
}

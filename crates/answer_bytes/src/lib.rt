//! The bytes of an answer: putting a class, a number, a part or a picture behind what is put, and comparing all with the stored bytes.

#![tactic(auto)]

ghost use Rattle.std.specs.Prelude.{◌≡◌, ◌+◌, ◌-◌, ◌%◌, ◌≤◌, ◌↔◌, List, ℕ, [], ◌∷◌, length, take, replicate, cond, IsTrue, Result};
ghost use Rattle.std.specs.Fn.{FnOnceReturnsAtMut};
ghost use Rattle.errors.specs.Refusal.{refusal_number};
ghost use Rattle.answer_bytes.specs.declared.TheConstants.{ROOM};
ghost use Rattle.answer_bytes.specs.Answer.{extended, class_of, low_bytes, part_bytes, UnwrittenFrom, KeepsRest, PutsPicture};

use errors::Refusal;
use std::marker::Model;

/// The length of the longest stored answer.
pub const MAX_ANSWER: usize = 16384;

/// One byte more than the longest stored answer, so that an answer that does not fit is longer than every stored one.
pub const ROOM: usize = MAX_ANSWER + 1;

/// What the room for a picture is filled with. No channel of any picture has this level, so a byte that a decoder leaves out is seen.
pub const UNWRITTEN: u8 = 1;

// A refusal's class.
fn class(refusal: Refusal) -> u8
    ensures { result ≡ class_of (refusal_number refusal) }
{
    match refusal {
        Refusal::Short(_) => 1,
        Refusal::Stamp => 2,
        Refusal::Dummy(_) => 3,
        Refusal::DatumSize(_) => 4,
        Refusal::NoPalette => 9,
        Refusal::NoTexels => 10,
        _ => 255,
    }
}

// Where the room is unwritten from, behind a picture that ends at `end`: there, if its closure kept what is behind it, or else nowhere.
fn written_to(end: usize, keeps: bool) -> usize
    ensures { result ≡ cond keeps end ROOM }
{
    if keeps { end } else { ROOM }
}

/// An answer: a list of bytes, the first len of the room. What does not fit is left out.
#[derive(Drop)]
pub struct Answer {
    room: [u8; ROOM],
    len: usize,
    // From here on the room is unwritten, so only what lies before it is filled again for a picture.
    written: usize,
}

impl Model for Answer {
    ghost Value = { List ℕ };

    ghost view = { λ a. take a.len a.room };

    ghost invariant = { λ a. (a.len ≤ ROOM) × (a.written ≤ ROOM) × UnwrittenFrom a.written a.room };
}

impl Answer {
    /// An answer with no bytes yet. It is inlined, so that the room is made where it stays, and not copied there.
    #[inline(always)]
    pub fn new() -> Answer
        ensures { result ≡ [] }
    {
        let mut answer = Answer {
            room: [0; ROOM],
            len: 0,
            written: ROOM,
        };
        // It is filled where it stands, since a room that is made of other bytes than 0 is copied to its place.
        answer.room.fill(UNWRITTEN);
        answer.written = 0;
        answer
    }

    /// Puts bytes.
    #[tactic(auto, using(crate::proofs::Extended::copied, crate::proofs::Rest::copied_before))]
    pub fn put_bytes(&mut self, bytes: &[u8])
        ensures { self.new ≡ extended self.old bytes.now }
    {
        let n = (ROOM - self.len).min(bytes.len());
        self.room[self.len..self.len + n].copy_from_slice(&bytes[..n]);
        self.len += n;
        self.written = self.written.max(self.len);
    }

    /// Puts the low 8 bits of a number.
    pub fn put_u8(&mut self, n: usize)
        ensures { self.new ≡ extended self.old (n % 256 ∷ []) }
    {
        self.put_bytes(&n.to_le_bytes()[..1]);
    }

    /// Puts the low 32 bits of a number, in 4 bytes.
    pub fn put_u32(&mut self, n: usize)
        ensures { self.new ≡ extended self.old (low_bytes n) }
    {
        self.put_bytes(&n.to_le_bytes()[..4]);
    }

    /// Puts a part behind its length.
    #[tactic(auto, using(crate::proofs::Extended::extended_twice))]
    pub fn put_part(&mut self, part: &[u8])
        ensures { self.new ≡ extended self.old (part_bytes part.now) }
    {
        self.put_u32(part.len());
        self.put_bytes(part);
    }

    /// Puts a refusal's class.
    pub fn put_class(&mut self, refusal: Refusal)
        ensures { self.new ≡ extended self.old (class_of (refusal_number refusal) ∷ []) }
    {
        self.put_bytes(&[class(refusal)]);
    }

    /// Puts class 0, and behind it the picture that `draw` writes to the room that is left. Where it is refused, its class stands in place of
    /// class 0, and nothing of what was drawn is put.
    pub fn put_picture<F: FnOnce(&mut [u8]) -> Result<usize, Refusal>>(&mut self, draw: F)
        requires { F.IsAlwaysCallable draw }
        ensures { PutsPicture (FnOnceReturnsAtMut F.FnOnce draw) self.old self.new }
    {
        self.put_drawn(draw, false);
    }

    /// Puts a picture as `put_picture` does, where `draw` keeps what is behind its picture, and the whole output where it is refused. So most of the
    /// room need not be filled for the next picture, and where there are many this is the call.
    pub fn put_picture_keeping<F: FnOnce(&mut [u8]) -> Result<usize, Refusal>>(&mut self, draw: F)
        requires callable { F.IsAlwaysCallable draw }
        requires keeps { KeepsRest (FnOnceReturnsAtMut F.FnOnce draw) }
        ensures { PutsPicture (FnOnceReturnsAtMut F.FnOnce draw) self.old self.new }
    {
        self.put_drawn(draw, true);
    }

    // Puts a picture, where it is said whether `draw` keeps what is behind it.
    fn put_drawn<F: FnOnce(&mut [u8]) -> Result<usize, Refusal>>(&mut self, draw: F, keeps: bool)
        requires callable { F.IsAlwaysCallable draw }
        requires keeps { IsTrue keeps → KeepsRest (FnOnceReturnsAtMut F.FnOnce draw) }
        ensures { PutsPicture (FnOnceReturnsAtMut F.FnOnce draw) self.old self.new }
    {
        let len = self.len;
        self.put_u8(0);
        let written = self.written.saturating_sub(self.len);
        let output = &mut self.room[self.len..];
        output[..written].fill(UNWRITTEN);
        match draw(output) {
            Ok(n) => {
                self.len += n.min(output.len());
                self.written = written_to(self.len, keeps);
            }
            Err(refusal) => {
                self.written = written_to(self.len, keeps);
                self.len = len;
                self.put_class(refusal);
            }
        }
    }

    /// Whether the answer is the stored one.
    pub fn agrees(&self, stored: &[u8]) -> bool
        ensures { IsTrue result ↔ (self.now ≡ stored.now) }
    {
        &self.room[..self.len] == stored
    }
}

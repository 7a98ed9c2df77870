//! Frames under ids.
#![tactic(auto)]

ghost use Rattle.std.specs.Prelude.{◌≡◌, ◌<◌, ◌≤◌, ◌+◌, ◌^◌, true, false, Some, IfOk, [], length, slice_set};
ghost use Rattle.frame_arena.specs.Frames.{Frames, Whole, IsFrame, TakeGives, zeros, frame_at, is_out, count_out, byte_at, bytes_of, with_frame, without_frame, written_over};

use crate::frame::Frame;
use std::alloc::{AllocError, Global};
use std::marker::Model;

/// The number of a frame, from 0.
#[derive(Clone, Copy, Debug, PartialEq, Eq)]
pub struct FrameId {
    number: u32,
}

impl Model for FrameId {
    ghost use Rattle.std.specs.Prelude.{ℕ};

    ghost Value = { ℕ };

    ghost view = { λ id. id.number };

    ghost inverse = { λ number. record { number = number } };
}

/// Why no frame is handed out.
#[derive(Clone, Copy, Debug, PartialEq, Eq, Drop)]
pub enum ArenaRefusal {
    /// As many frames as the limit are out.
    Full,
    /// The host lacks memory for a new frame.
    Memory,
}

/// Frames of 4,096 bytes each. One that is given back is kept, and its first eight bytes link to the one that
/// was given back before it.
#[derive(Drop)]
pub struct Arena {
    alloc: Global,
    limit: u32,
    // All that were requested, by id.
    frames: Vec<Frame>,
    // Whether each of them is out.
    marks: Vec<bool>,
    // How many are out.
    count: u32,
    // What links to the frame that was given back last: the number of its id and one, or 0.
    first: u64,
}

impl Model for Arena {
    ghost use Rattle.std.specs.Prelude.{◌≤◌, length, vec_capacity};
    ghost use Rattle.frame_arena.specs.Frames.{Frames, contents};
    ghost use Rattle.frame_arena.specs.Kept.{Kept};

    ghost Value = { Frames };

    ghost view = { λ a. record { limit = a.limit; made = length a.frames.items; out = contents a.frames.items a.marks.items } };

    ghost invariant = { λ a. Kept a.limit a.count a.first a.frames.items a.marks.items × (a.limit ≤ vec_capacity a.frames) × (a.limit ≤ vec_capacity a.marks) };
}

impl Arena {
    /// No frames, of which so many may be out at one time.
    pub fn new(alloc: Global, limit: u32) -> Result<Arena, AllocError>
        requires low { 1 ≤ limit }
        requires high { limit ≤ 65536 }
        ensures { IfOk result (λ a. a ≡ record { limit = limit; made = 0; out = [] }) }
    {
        Ok(Arena {
            alloc,
            limit,
            frames: Vec::with_capacity(alloc, limit as usize)?,
            marks: Vec::with_capacity(alloc, limit as usize)?,
            count: 0,
            first: 0,
        })
    }

    /// What is so of every arena.
    #[inline(always)]
    pub fn whole(&self)
        ensures { Whole self.now }
    {
        let _ = &self.limit;
    }

    /// How many frames were requested so far.
    pub fn made(&self) -> u32
        ensures { result ≡ self.now.made }
    {
        self.frames.len() as u32
    }

    /// How many frames are out.
    pub fn out(&self) -> u32
        ensures { result ≡ count_out self.now.out }
    {
        self.count
    }

    /// Whether a frame is out under an id.
    pub fn is_out(&self, id: FrameId) -> bool
        ensures { result ≡ is_out self.now id }
    {
        let place = id.number as usize;
        place < self.marks.len() && self.marks[place]
    }

    /// Hands a frame of zeros out: one that was given back where there is one, else a new one.
    #[tactic(auto, using(crate::proofs::EntryLemmas::put_there))]
    pub fn take(&mut self) -> Result<FrameId, ArenaRefusal>
        ensures gives { TakeGives result self.old self.new }
        ensures zeros { IfOk result (λ id. frame_at self.new id ≡ Some zeros) }
    {
        if self.count == self.limit {
            return Err(ArenaRefusal::Full);
        }
        if self.first == 0 {
            self.take_new()
        } else {
            Ok(self.take_freed())
        }
    }

    fn take_new(&mut self) -> Result<FrameId, ArenaRefusal>
        requires few { count_out self.old.out < self.old.limit }
        requires all { count_out self.old.out ≡ self.old.made }
        ensures { TakeGives result self.old self.new }
    {
        let number = self.made();
        match Frame::new(self.alloc) {
            Ok(frame) => {
                self.keep(frame);
                Ok(FrameId { number })
            }
            Err(_) => Err(ArenaRefusal::Memory),
        }
    }

    /// Appends a frame that is out.
    fn keep(&mut self, frame: Frame)
        requires few { count_out self.old.out < self.old.limit }
        requires all { count_out self.old.out ≡ self.old.made }
        requires zeros { frame ≡ zeros }
        ensures { self.new ≡ record (with_frame self.old self.old.made zeros) { made = self.old.made + 1 } }
    {
        match self.frames.push(frame) {
            Ok(()) => {}
            Err(_) => unreachable!(),
        }
        match self.marks.push(true) {
            Ok(()) => {}
            Err(_) => unreachable!(),
        }
        self.count += 1;
    }

    fn take_freed(&mut self) -> FrameId
        requires few { count_out self.old.out < self.old.limit }
        requires some { count_out self.old.out < self.old.made }
        ensures id { is_out self.old result ≡ false }
        ensures value { self.new ≡ with_frame self.old result zeros }
    {
        let place = (self.first - 1) as usize;
        self.first = self.frames[place].link();
        self.frames[place].clear();
        self.marks[place] = true;
        self.count += 1;
        FrameId {
            number: place as u32,
        }
    }

    /// Takes a frame back.
    pub fn give(&mut self, id: FrameId)
        requires { is_out self.old id ≡ true }
        ensures { self.new ≡ without_frame self.old id }
    {
        let place = id.number as usize;
        self.frames[place].set_link(self.first);
        self.marks[place] = false;
        self.count -= 1;
        self.first = u64::from(id.number) + 1;
    }

    /// The bytes of a frame.
    #[inline(always)]
    pub fn bytes(&self, id: FrameId) -> &[u8]
        requires { is_out self.now id ≡ true }
        ensures value { frame_at self.now id ≡ Some result.now }
        ensures whole { IsFrame result.now }
    {
        self.frames[id.number as usize].bytes()
    }

    /// The byte of a frame at an index below 4,096.
    pub fn load(&self, id: FrameId, at: u16) -> u8
        requires out { is_out self.now id ≡ true }
        requires inside { at < 4096 }
        ensures { result ≡ byte_at self.now id at }
    {
        self.bytes(id)[at as usize]
    }

    /// Stores a byte in a frame at an index below 4,096.
    #[inline(always)]
    pub fn store(&mut self, id: FrameId, at: u16, byte: u8)
        requires out { is_out self.old id ≡ true }
        requires inside { at < 4096 }
        ensures { self.new ≡ with_frame self.old id (slice_set (bytes_of self.old id) at byte) }
    {
        self.frames[id.number as usize].store(at as usize, byte);
    }

    /// Writes bytes in a frame from an index on.
    #[inline(always)]
    pub fn write(&mut self, id: FrameId, at: u16, bytes: &[u8])
        requires out { is_out self.old id ≡ true }
        requires inside { at + length bytes.now ≤ 4096 }
        ensures { self.new ≡ with_frame self.old id (written_over (bytes_of self.old id) at bytes.now) }
    {
        self.frames[id.number as usize].write(at as usize, bytes);
    }

    /// Copies the bytes of a frame to another.
    pub fn copy(&mut self, from: FrameId, to: FrameId)
        requires from { is_out self.old from ≡ true }
        requires to { is_out self.old to ≡ true }
        ensures { self.new ≡ with_frame self.old to (bytes_of self.old from) }
    {
        let mut bytes = [0; 4096];
        bytes.copy_from_slice(self.bytes(from));
        self.frames[to.number as usize].copy(&bytes);
    }
}

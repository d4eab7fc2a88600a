//! A source and a sink in memory, which fail at the calls that a list names.

ghost use Rattle.std.specs.Prelude.{◌≡◌, ◌<◌, ◌≤◌, ◌↔◌, Some, [], min, length, vec_len, IfOk, IsErr, IsTrue, Contains};
ghost use Rattle.std.specs.Io.KnownBytes.{ReadConsumes, WriteAppends};
ghost use Rattle.ua_io.specs.Faults.{Rose};
ghost use Rattle.ua_io.specs.inner.Faults.{HasCause};
ghost use Rattle.ua_io.specs.inner.Memory.{SupplyFails, StoreFails, IsNextSupply, IsNextStore, IsCounted, IsRoomLeft};

use crate::{Failed, Sink, Source};
use std::marker::Model;

// Whether the call of this number is in the list.
fn is_listed(calls: &[u32], call: u64) -> bool
    ensures { IsTrue result ↔ Contains calls.now call }
{
    calls.iter().any(|at| u64::from(*at) == call)
}

/// Bytes in memory, given in pieces. It fails exactly at the calls listed, counted from 0.
#[derive(Drop)]
pub struct MemSource {
    bytes: Vec<u8>,
    at: usize,
    most: u32,
    fails: Vec<u32>,
    calls: u64,
    faults: u64,
}

impl Model for MemSource {
    ghost use Rattle.std.specs.Prelude.{◌≤◌, ◌<◌, drop, length};
    ghost use Rattle.ua_io.specs.Memory.{Supply};

    ghost Value = { Supply };

    ghost view = { λ s. record { left = drop s.at s.bytes.items; most = s.most; fails = s.fails.items; calls = s.calls; faults = s.faults } };

    ghost invariant = { λ s. (s.at ≤ length s.bytes.items) × (0 < s.most) };
}

impl MemSource {
    /// A source of these bytes, which gives at most `most` of them at a call.
    pub fn new(bytes: Vec<u8>, most: u32, fails: Vec<u32>) -> MemSource
        requires { 0 < most }
        ensures { result ≡ record { left = bytes.items; most = most; fails = fails.items; calls = 0; faults = 0 } }
    {
        MemSource {
            bytes,
            at: 0,
            most,
            fails,
            calls: 0,
            faults: 0,
        }
    }
}

impl Source for MemSource {
    ghost use Rattle.std.specs.Prelude.{Some};

    ghost left = { λ s. Some s.left };

    ghost faults = { λ s. s.faults };

    /// Gives as many bytes as the least of `most`, the buffer's length and what is left.
    fn read(&mut self, buf: &mut [u8]) -> Result<usize, Failed>
        ensures within { IfOk result (λ n. n ≤ length buf.old) }
        ensures bytes { ReadConsumes (Some self.old.left) (Some self.new.left) result buf.new }
        ensures never_falls { self.old.faults ≤ self.new.faults }
        ensures cause { HasCause self.old.faults self.new.faults result }

        ensures fails { IsErr result ↔ SupplyFails self.old }
        ensures count { IfOk result (λ n. n ≡ min (min (length buf.old) (length self.old.left)) self.old.most) }
        ensures next { IsNextSupply self.old self.new }
        ensures counted { IsCounted self.old.faults self.new.faults result }
    {
        let call = self.calls;
        self.calls = call.saturating_add(1);
        if is_listed(&self.fails, call) {
            self.faults = self.faults.saturating_add(1);
            return Err(Failed);
        }
        let left = self.bytes.len() - self.at;
        let given = buf.len().min(left).min(self.most as usize);
        buf[..given].copy_from_slice(&self.bytes[self.at..self.at + given]);
        self.at += given;
        Ok(given)
    }
}

/// Room in memory, written over from the front. It fails exactly at the calls listed, counted from 0, and
/// where the room is full and the piece is not empty.
#[derive(Drop)]
pub struct MemSink {
    room: Vec<u8>,
    at: usize,
    most: u32,
    fails: Vec<u32>,
    calls: u64,
    faults: u64,
}

impl Model for MemSink {
    ghost use Rattle.std.specs.Prelude.{◌≤◌, ◌<◌, ◌-◌, take, length, vec_len};
    ghost use Rattle.ua_io.specs.Memory.{Store};

    ghost Value = { Store };

    ghost view = { λ s. record { written = take s.at s.room.items; room = vec_len s.room - s.at; most = s.most; fails = s.fails.items; calls = s.calls; faults = s.faults } };

    ghost invariant = { λ s. (s.at ≤ length s.room.items) × (0 < s.most) };
}

impl MemSink {
    /// A sink over this room, with nothing written, which takes at most `most` bytes at a call.
    pub fn new(room: Vec<u8>, most: u32, fails: Vec<u32>) -> MemSink
        requires { 0 < most }
        ensures { result ≡ record { written = []; room = vec_len room; most = most; fails = fails.items; calls = 0; faults = 0 } }
    {
        MemSink {
            room,
            at: 0,
            most,
            fails,
            calls: 0,
            faults: 0,
        }
    }

    /// All that was written.
    pub fn into_bytes(self) -> Vec<u8>
        ensures { result.items ≡ self.written }
    {
        let MemSink {
            room: mut bytes,
            at,
            most: _,
            fails: _,
            calls: _,
            faults: _,
        } = self;
        bytes.truncate(at);
        bytes
    }
}

impl Sink for MemSink {
    ghost use Rattle.std.specs.Prelude.{Some};

    ghost written = { λ s. Some s.written };

    ghost faults = { λ s. s.faults };

    /// Takes as many bytes as the least of `most`, the piece's length and the room left.
    fn write(&mut self, piece: &[u8]) -> Result<usize, Failed>
        ensures within { IfOk result (λ n. n ≤ length piece.now) }
        ensures bytes { WriteAppends (Some self.old.written) (Some self.new.written) result piece.now }
        ensures never_falls { self.old.faults ≤ self.new.faults }
        ensures cause { HasCause self.old.faults self.new.faults result }
        ensures stuck { IfOk result (λ n. n ≡ 0 → 0 < length piece.now → Rose self.old.faults self.new.faults) }

        ensures fails { IsErr result ↔ StoreFails self.old piece.now }
        ensures count { IfOk result (λ n. n ≡ min (min (length piece.now) self.old.room) self.old.most) }
        ensures next { IsNextStore self.old self.new }
        ensures counted { IsCounted self.old.faults self.new.faults result }
        ensures room { IsRoomLeft self.old.room self.new.room result }
    {
        let call = self.calls;
        self.calls = call.saturating_add(1);
        let left = self.room.len() - self.at;
        if is_listed(&self.fails, call) || (left == 0 && !piece.is_empty()) {
            self.faults = self.faults.saturating_add(1);
            return Err(Failed);
        }
        let taken = piece.len().min(left).min(self.most as usize);
        self.room[self.at..self.at + taken].copy_from_slice(&piece[..taken]);
        self.at += taken;
        Ok(taken)
    }
}

//! Sinks over memory: one that takes what fits, one whose listed calls fail, and one that takes a little at a time.
//! Their room is reserved at the start, so no write takes memory.

ghost use Rattle.std.specs.Prelude.{◌≡◌, ◌<◌, IfOk, take, true, false};
ghost use Rattle.js_outside.specs.InMemory.{RefusesWrite, WritesIn, counted, is_due, new_sink, refusing};

use crate::calls::{CallList, Plan};
use crate::faults::{Failed, raised};
use crate::sink::Sink;
use js_doc::Memory;
use std::alloc::Global;
use std::marker::Model;

/// Bytes in memory, with room for a given number of them. Its only fault is a piece that doesn't fit.
#[derive(Drop)]
pub struct MemorySink {
    written: Vec<u8>,
    room: u64,
    faults: u64,
}

impl Model for MemorySink {
    ghost use Rattle.std.specs.Prelude.{◌≤◌, vec_len};
    ghost use Rattle.std.specs.Vec.{vec_capacity};
    ghost use Rattle.js_outside.specs.InMemory.{SinkState};

    ghost Value = { SinkState };

    ghost view = { λ s. record { written = s.written.items; room = s.room; faults = s.faults } };

    ghost invariant = { λ s. (vec_len s.written ≤ s.room) × (s.room ≤ vec_capacity s.written) };
}

impl MemorySink {
    /// Reserves the room, so that no write takes memory.
    pub fn new(alloc: Global, room: u64) -> Result<MemorySink, Memory>
        ensures { IfOk result (λ made. made ≡ new_sink room) }
    {
        Ok(MemorySink {
            written: Vec::with_capacity(alloc, room as usize)?,
            room,
            faults: 0,
        })
    }

    /// What was written.
    pub fn written(&self) -> &[u8]
        ensures { result.now ≡ self.now.written }
    {
        self.written.as_slice()
    }

    /// Counts a write that failed.
    fn refuse(&mut self)
        ensures { self.new ≡ refusing self.old }
    {
        self.faults = raised(self.faults);
    }
}

impl Sink for MemorySink {
    ghost use Rattle.std.specs.Prelude.{Some};

    ghost written = { λ s. Some s.written };

    ghost faults = { λ s. s.faults };

    fn write(&mut self, piece: &[u8]) -> Result<usize, Failed>
        ensures { WritesIn self.old self.new piece.now result }
    {
        if piece.len() as u64 > self.room - self.written.len() as u64 {
            self.refuse();
            return Err(Failed);
        }
        match self.written.extend_from_slice(piece) {
            Ok(()) => Ok(piece.len()),
            Err(_) => unreachable!(),
        }
    }
}

/// As [`MemorySink`], and the listed calls of `write`, numbered from 0, fail too.
#[derive(Drop)]
pub struct FailingSink {
    sink: MemorySink,
    plan: Plan,
}

impl Model for FailingSink {
    ghost use Rattle.js_outside.specs.InMemory.{FailingSinkState};

    ghost Value = { FailingSinkState };

    ghost view = { λ s. record { sink = s.sink; plan = s.plan } };
}

impl FailingSink {
    /// Reserves the room, so that no write takes memory.
    pub fn new(alloc: Global, room: u64, fail: CallList) -> Result<FailingSink, Memory>
        ensures { IfOk result (λ made.
            made ≡ record { sink = new_sink room; plan = record { fail = fail; made = 0 } }) }
    {
        Ok(FailingSink {
            sink: MemorySink::new(alloc, room)?,
            plan: Plan::new(fail),
        })
    }

    /// What was written.
    pub fn written(&self) -> &[u8]
        ensures { result.now ≡ self.now.sink.written }
    {
        self.sink.written()
    }
}

impl Sink for FailingSink {
    ghost use Rattle.std.specs.Prelude.{Some};

    ghost written = { λ s. Some s.sink.written };

    ghost faults = { λ s. s.sink.faults };

    fn write(&mut self, piece: &[u8]) -> Result<usize, Failed>
        ensures counted { self.new.plan ≡ counted self.old.plan }
        ensures listed { is_due self.old.plan ≡ true → RefusesWrite self.old.sink self.new.sink result }
        ensures other { is_due self.old.plan ≡ false → WritesIn self.old.sink self.new.sink piece.now result }
    {
        if self.plan.is_due() {
            self.sink.refuse();
            return Err(Failed);
        }
        self.sink.write(piece)
    }
}

/// As [`MemorySink`], and a write takes at most `piece` bytes.
#[derive(Drop)]
pub struct CutSink {
    sink: MemorySink,
    piece: u32,
}

impl Model for CutSink {
    ghost use Rattle.std.specs.Prelude.{◌<◌};
    ghost use Rattle.js_outside.specs.InMemory.{CutSinkState};

    ghost Value = { CutSinkState };

    ghost view = { λ s. record { sink = s.sink; piece = s.piece } };

    ghost invariant = { λ s. 0 < s.piece };
}

impl CutSink {
    /// Reserves the room, so that no write takes memory.
    pub fn new(alloc: Global, room: u64, piece: u32) -> Result<CutSink, Memory>
        requires { 0 < piece }
        ensures { IfOk result (λ made. made ≡ record { sink = new_sink room; piece = piece }) }
    {
        Ok(CutSink {
            sink: MemorySink::new(alloc, room)?,
            piece,
        })
    }

    /// What was written.
    pub fn written(&self) -> &[u8]
        ensures { result.now ≡ self.now.sink.written }
    {
        self.sink.written()
    }
}

impl Sink for CutSink {
    ghost use Rattle.std.specs.Prelude.{Some};

    ghost written = { λ s. Some s.sink.written };

    ghost faults = { λ s. s.sink.faults };

    fn write(&mut self, piece: &[u8]) -> Result<usize, Failed>
        ensures cut { WritesIn self.old.sink self.new.sink (take self.old.piece piece.now) result }
        ensures same { self.new.piece ≡ self.old.piece }
        ensures piece { 0 < self.old.piece }
    {
        let count = piece.len().min(self.piece as usize);
        self.sink.write(&piece[..count])
    }
}

//! A sink over a stream.
ghost use Rattle.std.specs.Prelude.{None};

use pj_outside::{Failed, Sink};
use std::io::Write;

/// A sink over a stream, which tells nothing of what the stream got.
#[derive(Drop)]
pub struct RealSink<W: Write> {
    stream: W,
    faults: u64,
}

impl<W: Write> RealSink<W> {
    /// A sink that has not failed yet.
    pub fn new(stream: W) -> RealSink<W> {
        RealSink { stream, faults: 0 }
    }

    /// The stream, for a caller that reads what it got.
    pub fn stream(&self) -> &W {
        &self.stream
    }
}

impl<W: Write> Sink for RealSink<W> {
    ghost held = { λ _. None };

    ghost faults = { λ s. s.faults };

    fn put(&mut self, piece: &[u8]) -> Result<(), Failed> {
        match self.stream.write_all(piece) {
            Ok(()) => Ok(()),
            Err(_) => {
                self.faults = self.faults.saturating_add(1);
                Err(Failed)
            }
        }
    }
}

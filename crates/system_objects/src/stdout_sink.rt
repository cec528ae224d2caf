//! A sink that writes to the standard output, or to another writer.
ghost use Rattle.std.specs.Prelude.{◌≡◌, ◌^◌, ◌<◌, ◌≤◌, None, OnErr, OnOk};
ghost use Rattle.saml_outside.specs.Counts.{Rose, one_more};
ghost use Rattle.saml_outside.specs.Sinks.{Puts};
ghost use Rattle.system_objects.specs.Streams.{Sends};

use saml_outside::{Sink, SinkFailed};
use std::io::{ErrorKind, Write};

/// A sink over a writer, with a count of the pieces that failed. It does not tell what it has taken.
#[derive(Drop)]
pub struct StdoutSink<W> {
    out: W,
    faults: u64,
}

impl<W: Write> StdoutSink<W> {
    /// A sink over this writer, and no fault so far.
    pub fn new(out: W) -> StdoutSink<W>
        ensures out { result.out ≡ out }
        ensures faults { result.faults ≡ 0 }
    {
        StdoutSink { out, faults: 0 }
    }
}

// Writes all of the piece, and flushes the writer. It fails where the writer fails or takes nothing; a write that a
// signal interrupted is tried again.
fn send<W: Write>(out: &mut W, piece: &[u8]) -> Result<(), SinkFailed>
    ensures { Sends (W.contents out.old) (W.contents out.new) piece.now result }
{
    let mut sent = 0;
    for _ in 0..u64::MAX {
        if sent == piece.len() {
            return out.flush().map_err(|_| SinkFailed { sent });
        }
        match out.write(&piece[sent..]) {
            Ok(0) => break,
            Ok(count) => sent += count,
            Err(e) => {
                if e.kind() != ErrorKind::Interrupted {
                    break;
                }
            }
        }
    }
    Err(SinkFailed { sent })
}

impl<W: Write> Sink for StdoutSink<W> {
    ghost taken = { λ _. None };

    ghost faults_of = { λ s. s.faults };

    /// After Ok the writer was flushed. A flush that fails is a fault too, of which all bytes were taken.
    fn put(&mut self, bytes: &[u8]) -> Result<(), SinkFailed>
        ensures puts { Puts None bytes.now result None }
        ensures failed { OnErr result (Rose self.old.faults self.new.faults) }
        ensures never_falls { self.old.faults ≤ self.new.faults }
        ensures in_range { self.new.faults < 2 ^ 64 }

        // What the writer holds afterwards, where it knows.
        ensures sends { Sends (W.contents self.old.out) (W.contents self.new.out) bytes.now result }
        // Each piece that failed counts as one fault, and nothing else does.
        ensures counted { OnErr result (self.new.faults ≡ one_more self.old.faults) }
        ensures else_kept { OnOk result (self.new.faults ≡ self.old.faults) }
    {
        let faults = self.faults;
        let result = send(&mut self.out, bytes);
        if result.is_err() {
            self.faults = faults.saturating_add(1);
        }
        result
    }

    fn faults(&self) -> u64 {
        self.faults
    }
}

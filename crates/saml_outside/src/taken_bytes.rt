//! A sink in memory.
ghost use Rattle.std.specs.Prelude.{◌≡◌, ◌-◌, ◌^◌, ◌<◌, ◌≤◌, [], ◌++◌, Some, IfErr, IsErr, IsOk, OnErr, OnOk};
ghost use Rattle.saml_outside.specs.Counts.{Rose, one_more};
ghost use Rattle.saml_outside.specs.Sinks.{Puts};

use crate::{NoMemory, Sink, SinkFailed};
use std::alloc::Global;
use std::marker::Model;

/// A sink that keeps what it takes in memory, and of which one `put` may be chosen to fail.
#[derive(Debug, Drop)]
pub struct MemSink {
    bytes: Vec<u8>,
    failing: u64,
    faults: u64,
}

impl Model for MemSink {
    ghost use Rattle.saml_outside.specs.InMemory.{SinkInMemory};

    ghost Value = { SinkInMemory };

    ghost view = { λ s. record { bytes = s.bytes.items; failing = s.failing; faults = s.faults } };
}

impl MemSink {
    /// Nothing taken, no call that is to fail, and no fault so far. It takes no memory.
    pub fn new(alloc: Global) -> MemSink
        ensures { result ≡ record { bytes = []; failing = 0; faults = 0 } }
    {
        MemSink {
            bytes: Vec::new(alloc),
            failing: 0,
            faults: 0,
        }
    }

    /// Lets the `k`-th call of `put` from now fail; with 0 none is chosen. It replaces the choice of an earlier
    /// `fail_at`. It takes no memory, and never answers `NoMemory`.
    pub fn fail_at(&mut self, k: u64) -> Result<(), NoMemory>
        ensures ok { IsOk result }
        ensures chosen { self.new ≡ record self.old { failing = k } }
    {
        self.failing = k;
        Ok(())
    }

    /// All that was taken.
    pub fn bytes(&self) -> &[u8]
        ensures { result.now ≡ self.now.bytes }
    {
        self.bytes.as_slice()
    }
}

impl Sink for MemSink {
    ghost taken = { λ s. Some s.bytes };

    ghost faults_of = { λ s. s.faults };

    /// Besides the chosen call one fails that finds no memory. A call that fails takes nothing.
    fn put(&mut self, bytes: &[u8]) -> Result<(), SinkFailed>
        ensures puts { Puts (Some self.old.bytes) bytes.now result (Some self.new.bytes) }
        ensures failed { OnErr result (Rose self.old.faults self.new.faults) }
        ensures never_falls { self.old.faults ≤ self.new.faults }
        ensures in_range { self.new.faults < 2 ^ 64 }

        // The chosen call fails.
        ensures chosen { self.old.failing ≡ 1 → IsErr result }
        ensures nothing { IfErr result (λ e. e.sent ≡ 0) }
        ensures ok { OnOk result (self.new ≡ record self.old { bytes = self.old.bytes ++ bytes.now; failing = self.old.failing - 1 }) }
        ensures err { OnErr result (self.new ≡ record self.old { failing = self.old.failing - 1; faults = one_more self.old.faults }) }
    {
        let faults = self.faults;
        let fails = self.failing == 1;
        self.failing = self.failing.saturating_sub(1);
        if fails || self.bytes.extend_from_slice(bytes).is_err() {
            self.faults = faults.saturating_add(1);
            return Err(SinkFailed { sent: 0 });
        }
        Ok(())
    }

    fn faults(&self) -> u64 {
        self.faults
    }
}

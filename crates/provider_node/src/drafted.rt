//! What became of the draft of a reply.
ghost use Rattle.std.specs.Prelude.{◌≡◌};
ghost use Rattle.provider_node.specs.Drafted.{drafted_of};

use ledger_rules::DraftFault;

/// What became of the draft of what is to be recorded.
#[derive(Drop)]
pub enum DraftOutcome<D> {
    /// It can be committed.
    Ready(D),
    /// There is nothing to record.
    Nothing,
    /// There is no place for the record.
    NoPlace,
    /// There was no memory.
    NoMemory,
}

impl<D: Drop> DraftOutcome<D> {
    /// From what a ledger answers to a call that drafts.
    pub fn of(outcome: Result<Option<D>, DraftFault>) -> DraftOutcome<D>
        ensures { result ≡ drafted_of outcome }
    {
        match outcome {
            Ok(Some(draft)) => DraftOutcome::Ready(draft),
            Ok(None) => DraftOutcome::Nothing,
            Err(DraftFault::LedgerFull { .. }) => DraftOutcome::NoPlace,
            Err(DraftFault::JournalFull { .. }) => DraftOutcome::NoPlace,
            Err(DraftFault::NoMemory) => DraftOutcome::NoMemory,
        }
    }
}

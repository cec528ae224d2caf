//! What a call of the system answered, as a trait's answer.
ghost use Rattle.std.specs.Prelude.{◌≡◌, IsErr, MatchResult, OnErr};
ghost use Rattle.crash_disk.specs.Counts.{CountsFaults, one_more};

use crash_disk::Failed;
use std::io;

/// The answer of a call, with one fault more where it failed, and no other.
pub(crate) fn counted<T>(answer: io::Result<T>, faults: &mut u64) -> Result<T, Failed>
    ensures answers { MatchResult answer (λ value. result ≡ Ok value) (λ _. IsErr result) }
    ensures counts { CountsFaults result faults.old faults.new }
    ensures risen { OnErr result (faults.new ≡ one_more faults.old) }
{
    let count = *faults;
    match answer {
        Ok(value) => Ok(value),
        Err(_) => {
            *faults = count.saturating_add(1);
            Err(Failed)
        }
    }
}

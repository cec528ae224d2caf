//! The laws of a ledger.
ghost use Rattle.record_ledger.specs.Laws.{ImagesHoldRecords, VisibleRecordsStay};

use crate::standing::Standing;

/// What an image stands for has records of the ledger, each behind those before it.
pub fn images_hold_records<S: Standing>()
    ensures { ImagesHoldRecords S.rules }
{}

/// What is kept in a ledger, and visible at each moment at which a run compacts it, stays there to the end of the run: the records
/// that name it there are those that did, and those that were added since.
pub fn visible_records_stay<S: Standing>()
    ensures { VisibleRecordsStay S.rules }
{}

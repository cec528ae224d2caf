//! The laws of a provider of any role, each the contract of a function that does nothing.
ghost use Rattle.std.specs.Prelude.{Contains};
ghost use Rattle.provider_node.specs.Added.{WhatIsNewIsOfTheRequest};
ghost use Rattle.provider_node.specs.Causes.{EachCodeHasItsCause};
ghost use Rattle.provider_node.specs.Origins.{EachRecordHasItsRequest};
ghost use Rattle.provider_node.specs.Starving.{WhatIsVisibleStays};
ghost use Rattle.provider_node.specs.Staying.{RowIsAsLeft, SessionsStayInAService, SessionsStayOverStarts};
ghost use Rattle.provider_node.specs.Staying.{WhatWasOpenedIsAsLeft};

use crate::role::Role;

/// Each record that stands in an image which a crash inside the answer to a request may leave, or one behind it, and
/// stood nowhere before, is one that this request adds, whatever was answered.
pub fn what_is_new_is_of_the_request<R: Role>()
    ensures { WhatIsNewIsOfTheRequest R.Rows.rules R.answers }
{}

/// Each record in each ledger that may be opened behind starts, wherever a crash stopped them, stood there at first, or
/// is one that a request of these starts adds, whatever was answered to it and also where a crash cut it.
pub fn each_record_has_its_request<R: Role>()
    ensures { EachRecordHasItsRequest R.Rows.rules R.answers }
{}

/// Each row for whose record an answer went out is as it was left in each image that has in its history what was
/// acknowledged, with compactions at these moments: where it is visible at each of them its record stands there, and
/// those that name it are those that were added since.
pub fn each_row_stays<R: Role>()
    ensures { WhatWasOpenedIsAsLeft R.Rows.rules (λ records r. Contains records r) (RowIsAsLeft R.Rows.rules) }
{}

/// Each row for whose record an answer went out is as it was left in every image that a crash may leave behind a
/// service, and in every ledger that may be opened behind several starts, each request of which was asked at one of
/// these moments.
pub fn each_row_stays_over_starts<R: Role>()
    ensures service { SessionsStayInAService R.Rows.rules
        (λ records r. Contains records r) (RowIsAsLeft R.Rows.rules) R.answers }
    ensures starts { SessionsStayOverStarts R.Rows.rules
        (λ records r. Contains records r) (RowIsAsLeft R.Rows.rules) R.answers }
{
    R::numbers_are_new();
}

/// Where there was no memory for an answer and the ledger was not broken, each row that was visible at the moment of
/// the request is visible behind it.
pub fn what_is_visible_stays<R: Role>()
    ensures { WhatIsVisibleStays R.Rows.rules R.answers }
{}

/// Where no answer of a role is one of the codes that a provider answers for itself, each of these is answered for its
/// cause alone: that the disk failed where its count of faults rose, that there is no room where one compaction made
/// none, and that the disk holds no ledger of this provider where its image stands for none.
pub fn each_code_has_its_cause<R: Role>()
    ensures { EachCodeHasItsCause R.Rows.rules R.answers }
{}

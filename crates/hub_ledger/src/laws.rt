//! Laws of a ledger, each the contract of a function that does nothing.
ghost use Rattle.hub_ledger.specs.Backing.{EachLoginHasItsRequest};
ghost use Rattle.hub_ledger.specs.Laws.{ImagesHoldRecords, KeptAreRecords, CompactionsChangeNoAnswer, NoRequestBacksTwice, NoRequestBacksTwiceInARun, TheTextsOfARoutedRequestMayStand};

/// What an image stands for has records of the ledger, each behind those before it.
pub fn images_hold_records()
    ensures { ImagesHoldRecords }
{}

/// What is kept of records of a ledger are records of a ledger.
pub fn kept_are_records()
    ensures { KeptAreRecords }
{}

/// From the moment of a compaction on it changes no answer.
pub fn compactions_change_no_answer()
    ensures { CompactionsChangeNoAnswer }
{}

/// No ledger has two logins that one request backs.
pub fn no_request_backs_twice()
    ensures { NoRequestBacksTwice }
{}

/// No run passes on two logins for one request, those included whose records were left out since.
pub fn no_request_backs_twice_in_a_run()
    ensures { NoRequestBacksTwiceInARun }
{}

/// A document may hold the texts of each request below that is found by the one that was sent upwards for it.
pub fn the_texts_of_a_routed_request_may_stand()
    ensures { TheTextsOfARoutedRequestMayStand }
{}

/// In each ledger a login that was passed on has its request upwards, and goes to the request below for which that was sent.
pub fn each_login_has_its_request()
    ensures { EachLoginHasItsRequest }
{}

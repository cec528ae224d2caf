//! Laws of requests and answers, each the contract of a function that does nothing.
ghost use Rattle.http_wire.specs.Clients.{AnswerIsReadAgain};
ghost use Rattle.http_wire.specs.Statuses.{AnAnswerHasOneStatus, EachAnswerHasItsStatus};
ghost use Rattle.http_wire.specs.Vouching.{AVouchedAnswerIsReadAgain, EachLineIsPrintable, NothingIsLost};
ghost use Rattle.http_wire.specs.Laws.{BytesHaveOneReading, MoreBytesChangeNothing, BeginningIsMoreOrTheSame, WholeRequestEndsAtOnePlace, WhatIsKnownStaysTrue, EachVerdictHasItsAnswer, FixedAnswersHaveRoom};

/// All bytes so far say what they are: how they were cut on their way changes nothing.
pub fn bytes_have_one_reading()
    ensures { BytesHaveOneReading }
{}

/// A whole request or a refusal is not changed by bytes that come behind.
pub fn more_bytes_change_nothing()
    ensures { MoreBytesChangeNothing }
{}

/// The first of some bytes are the beginning of a request, or what all of them are: the same request or the same refusal.
pub fn a_beginning_is_more_or_the_same()
    ensures { BeginningIsMoreOrTheSame }
{}

/// A whole request ends at one place. Fewer bytes are the beginning of a request.
pub fn a_whole_request_ends_at_one_place()
    ensures { WholeRequestEndsAtOnePlace }
{}

/// What is known of the bytes of a connection is true with more bytes behind them.
pub fn what_is_known_stays_true()
    ensures { WhatIsKnownStaysTrue }
{}

/// The number of each verdict is one that [`put_fixed`](crate::put_fixed) takes, and what it writes names the verdict.
pub fn each_verdict_has_its_answer()
    ensures { EachVerdictHasItsAnswer }
{}

/// What [`put_fixed`](crate::put_fixed) writes has at most [`FIXED_ROOM`](crate::FIXED_ROOM) bytes.
pub fn fixed_answers_have_room()
    ensures { FixedAnswersHaveRoom }
{}

/// A client reads an answer as its status, its fields and its body, and no text that a field was given ends the field: where
/// `location` and `cookie` hold no control characters but tabs.
pub fn an_answer_is_read_again()
    ensures { AnswerIsReadAgain }
{}

/// A client reads an answer that vouches for someone as its status and just its own fields: neither the name nor a value ends a
/// line or begins another, since no byte of the two lines is outside 0x20 to 0x7E. From them the name and the values are read back.
pub fn a_vouched_answer_is_read_again()
    ensures read { AVouchedAnswerIsReadAgain }
    ensures lines { EachLineIsPrintable }
    ensures told { NothingIsLost }
{}

/// Each answer has its status, and no other.
pub fn an_answer_has_one_status()
    ensures has { EachAnswerHasItsStatus }
    ensures one { AnAnswerHasOneStatus }
{}

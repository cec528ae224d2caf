//! Laws of many connections, each the contract of a function that does nothing.
ghost use Rattle.conn_table.specs.Laws.{AnswersAreExact, FewAreKept, EventsCompleteOneThing, CallsGiveCompletions, KeptBytesAreMore, KeptBytesAreFew, AllKeptBytesAreFew, TablesAreSmall, RequestsEndInTheirPiece, CutsChangeNothing, EachIsAsAlone, OthersChangeNothing};

/// The answer to a piece is that of whatever all the bytes are: `Waiting` just where they are the beginning of a request,
/// `Ready` where they are a whole one, and `Refused` where they are refused, with the same status.
pub fn answers_are_exact()
    ensures { AnswersAreExact }
{
    http_wire::laws::bytes_have_one_reading();
}

/// No more connections are kept than there may be.
pub fn few_are_kept()
    ensures { FewAreKept }
{}

/// A list of events completes one list of connections and readings.
pub fn events_complete_one_thing()
    ensures { EventsCompleteOneThing }
{
    http_wire::laws::bytes_have_one_reading();
}

/// What the calls complete event by event is what the definition says of the whole list of events, and the table has the
/// connections that it keeps, each with its bytes.
pub fn calls_give_completions()
    ensures { CallsGiveCompletions }
{
    http_wire::laws::bytes_have_one_reading();
}

/// The bytes of a connection that is kept are the beginning of a request.
pub fn kept_bytes_are_more()
    ensures { KeptBytesAreMore }
{}

/// The bytes of a connection that is kept are fewer than the longest request has: fewer than `HEAD_LIMIT` and
/// `BODY_LIMIT` of `http_wire` together. So all that are kept have fewer than
/// [`CONNECTION_LIMIT`](crate::CONNECTION_LIMIT) times as many, and so has the table that the calls leave behind each
/// event. Where a piece completes a connection, the table has all of that piece too, until the connection is gone.
pub fn kept_bytes_are_few()
    ensures each { KeptBytesAreFew }
    ensures all { AllKeptBytesAreFew }
    ensures table { TablesAreSmall }
{
    http_wire::laws::bytes_have_one_reading();
}

/// A request is completed by the piece that brings the place where it ends.
pub fn requests_end_in_their_piece()
    ensures { RequestsEndInTheirPiece }
{
    http_wire::laws::bytes_have_one_reading();
    http_wire::laws::a_whole_request_ends_at_one_place();
}

/// How the bytes of a connection were cut on their way changes nothing: a piece may as well come as two.
pub fn cuts_change_nothing()
    ensures { CutsChangeNothing }
{
    http_wire::laws::bytes_have_one_reading();
    http_wire::laws::more_bytes_change_nothing();
}

/// What a connection brings does not depend on the events of others, but for whether it was taken: it is what its own events
/// complete.
pub fn others_change_nothing()
    ensures alone { EachIsAsAlone }
    ensures others { OthersChangeNothing }
{
    http_wire::laws::bytes_have_one_reading();
}

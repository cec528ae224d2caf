//! Laws of what a user agent sends and sees, each the contract of a function that does nothing.
ghost use Rattle.post_agent.specs.Laws.{EachAnswerHasOneReading, EachRequestIsRead};

/// Bytes are one answer at most, and its body is one page: so what an agent sees and keeps is fixed by what it is sent.
pub fn each_answer_has_one_reading()
    ensures { EachAnswerHasOneReading }
{
    post_binding::laws::an_escaped_text_holds_no_markup();
    post_binding::laws::an_escaped_text_is_read_again();
}

/// A node reads what an agent sends as a whole request for its path, with its cookie and its form: where the path and
/// the cookie are visible characters of ASCII, and the lengths are within the node's limits.
pub fn each_request_is_read()
    ensures { EachRequestIsRead }
{}

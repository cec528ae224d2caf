//! Laws of forms and pages, each the contract of a function that does nothing.
ghost use Rattle.post_binding.specs.Laws.{WhatIsPostedIsRead, Base64IsCanonical, EscapedTextHoldsNoMarkup, EscapedTextIsReadAgain, PagesHaveTheirOwnMarkup};

/// A form that was made is read as its field, its message and its relay, where the message has at most
/// [`MESSAGE_LIMIT`](crate::MESSAGE_LIMIT) bytes, and the relay at most [`RELAY_LIMIT`](crate::RELAY_LIMIT) and no U+FFFD.
pub fn what_is_posted_is_read()
    ensures { WhatIsPostedIsRead }
{}

/// The decoding that `form` cites takes the base64 of each message, and nothing else (RFC 4648, 3.5 and 4).
pub fn base64_is_canonical()
    ensures { Base64IsCanonical }
{}

/// An escaped text holds none of `<`, `>`, `"` and `'`: it ends neither the element nor the attribute that it stands in.
pub fn an_escaped_text_holds_no_markup()
    ensures { EscapedTextHoldsNoMarkup }
{}

/// Each `&` of an escaped text begins one of the five references, and the text that they are read as is the text itself.
pub fn an_escaped_text_is_read_again()
    ensures { EscapedTextIsReadAgain }
{}

/// The tags and the quotation marks of a page are those that it has with empty texts: no user and no peer can put any
/// into it, or take one away.
pub fn pages_have_their_own_markup()
    ensures { PagesHaveTheirOwnMarkup }
{}

//! Cookies as a client sends them.
ghost use Rattle.std.specs.Prelude.{◌≡◌, ◌∷◌, [], reverse, MatchOption};
ghost use Rattle.std.specs.Option.{option_map};
ghost use Rattle.http_wire.specs.Cookies.{pieces, behind_spaces, without_spaces, pair_of, cookie_value};

use std::marker::Model;

/// The text without the spaces at its beginning.
fn behind_spaces(text: &str) -> &str
    ensures { result.now ≡ behind_spaces text.now }
{
    let mut rest = text;
    while let Some(behind) = rest.strip_prefix(' ') {
        rest = behind;
    }
    rest
}

/// The text without the spaces at its end.
fn before_spaces(text: &str) -> &str
    ensures { result.now ≡ reverse (behind_spaces (reverse text.now)) }
{
    let mut rest = text;
    while let Some(front) = rest.strip_suffix(' ') {
        rest = front;
    }
    rest
}

/// The name and the value of a piece; none where it has no `=`.
fn pair_of(piece: &str) -> Option<(&str, &str)>
    ensures { option_map (λ pair. (pair.0.now, pair.1.now)) result ≡ pair_of (without_spaces piece.now) }
{
    before_spaces(behind_spaces(piece)).split_once('=')
}

/// What stands between the semicolons of a header, from one on.
#[derive(Drop)]
struct Pieces<'b> {
    rest: Option<&'b str>,
}

impl<'b> Model for Pieces<'b> {
    ghost use Rattle.std.specs.Prelude.{List, ℕ, []};
    ghost use Rattle.std.specs.Option.{option_map_or};
    ghost use Rattle.http_wire.specs.Cookies as cookies;

    ghost Value = { List (List ℕ) };

    ghost view = { λ p. option_map_or (λ text. cookies.pieces text.now) p.rest [] };
}

impl<'b> Pieces<'b> {
    /// The pieces of the header.
    fn of(header: &'b str) -> Pieces<'b>
        ensures { result ≡ pieces header.now }
    {
        Pieces { rest: Some(header) }
    }

    /// The next piece; none where there is none.
    fn next_piece(&mut self) -> Option<&'b str>
        ensures { MatchOption result ((self.old ≡ []) × (self.new ≡ [])) (λ piece. self.old ≡ piece.now ∷ self.new) }
    {
        let text = self.rest?;
        match text.split_once(';') {
            Some((piece, rest)) => {
                self.rest = Some(rest);
                Some(piece)
            }
            None => {
                self.rest = None;
                Some(text)
            }
        }
    }
}

/// The value of the first cookie of this name in a Cookie header; none where it holds none. Cookies stand between `;`,
/// with any number of spaces round each, and a name ends at the first `=` (RFC 6265, 4.2). It takes no memory.
pub fn cookie_of<'b>(header: &'b str, name: &str) -> Option<&'b str>
    ensures { option_map (λ value. value.now) result ≡ cookie_value header.now name.now }
{
    let mut pieces = Pieces::of(header);
    while let Some(piece) = pieces.next_piece() {
        if let Some((key, value)) = pair_of(piece)
            && key == name
        {
            return Some(value);
        }
    }
    None
}

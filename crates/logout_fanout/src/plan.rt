//! Whom an identity provider asks.
ghost use Rattle.std.specs.Prelude.{◌≡◌, ◌∷◌, ◌++◌, ℕ, List, [], option_copied, IfOk};
ghost use Rattle.std.specs.Str.{bytes_eq};
ghost use Rattle.std.specs.List.{list_any};
ghost use Rattle.owned_values.specs.Options.{is_there};
ghost use Rattle.logout_fanout.specs.Plan.{can_be_asked, has_address, indexes_of, is_among, skipped, turns};

use logout_turns::{Part, Turn, Turns};
use owned_values::{NoMemory, Text, Texts};
use peer_keys::{LogoutPeer, place_of};
use std::alloc::Global;
use std::collections::BTreeSet;
use std::marker::Model;

/// Whom to ask for a logout, one after the other.
#[derive(Debug, Drop)]
pub struct Plan {
    /// The providers to ask.
    pub turns: Turns,
    /// Whether there are others that can't be asked: without an address for logout, or no peers any more.
    pub skipped: bool,
}

/// Texts that differ, in the order in which they came first.
#[derive(Drop)]
struct Distinct {
    texts: Texts,
    seen: BTreeSet<String>,
}

impl Model for Distinct {
    ghost use Rattle.std.specs.Prelude.{◌≡◌, List, ℕ};
    ghost use Rattle.std.specs.BTreeSet.{contains_text};
    ghost use Rattle.logout_fanout.specs.Plan.{is_among};

    ghost Value = { List (List ℕ) };

    ghost view = { λ d. d.texts };

    ghost invariant = { λ d. (text : List ℕ) → contains_text d.seen text ≡ is_among text d.texts };
}

impl Distinct {
    /// No text. It takes no memory.
    fn new(alloc: Global) -> Distinct
        ensures { result ≡ [] }
    {
        Distinct {
            texts: Texts::new(alloc),
            seen: BTreeSet::new(alloc),
        }
    }

    /// Whether this text is one of them.
    fn has(&self, text: &str) -> bool
        ensures { result ≡ is_among text.now self.now }
    {
        self.seen.contains(text)
    }

    /// These texts and one more.
    fn with(self, alloc: Global, text: &Text) -> Result<Distinct, NoMemory>
        ensures { IfOk result (λ texts. texts ≡ self ++ text.now ∷ []) }
    {
        let Distinct {
            mut texts,
            mut seen,
        } = self;
        seen.insert(String::from_str(alloc, text.as_str())?)?;
        texts.push(text.copy()?)?;
        Ok(Distinct { texts, seen })
    }
}

/// Whether this provider is the one that asks, where one does.
fn is_asker(asker: Option<&str>, peer: &Text) -> bool
    ensures { result ≡ is_there peer.now (option_copied asker.entry) }
{
    match asker {
        Some(asker) => asker == peer.as_str(),
        None => false,
    }
}

/// Whether a provider is one of the peers, with an address for logout.
fn has_address(peers: &[LogoutPeer], entity: &Text) -> bool
    ensures { result ≡ has_address peers.now entity.now }
{
    match place_of(peers, entity.as_str()) {
        Some(place) => peers[place].peer.logout.is_some(),
        None => false,
    }
}

/// Whether the provider of a part is another one than the asker, and can be asked.
fn can_be_asked(part: &Part, asker: Option<&str>, peers: &[LogoutPeer]) -> bool
    ensures { result ≡ can_be_asked (option_copied asker.entry) peers.now part.now }
{
    !is_asker(asker, &part.peer) && has_address(peers, &part.peer)
}

/// The indexes of the parts of a provider, each once.
fn indexes_of(alloc: Global, parts: &[Part], peer: &Text) -> Result<Texts, NoMemory>
    ensures { IfOk result (λ indexes. indexes ≡ indexes_of peer.now parts.now) }
{
    let mut found = Distinct::new(alloc);
    for part in parts {
        if part.peer.as_str() == peer.as_str() && !found.has(part.index.as_str()) {
            found = found.with(alloc, &part.index)?;
        }
    }
    Ok(found.texts)
}

/// Whether a provider has a turn.
fn has_turn(turns: &[Turn], peer: &Text) -> bool
    ensures { result ≡ list_any (λ turn. bytes_eq turn.peer peer.now) turns.now }
{
    turns.iter().any(|turn| turn.peer.as_str() == peer.as_str())
}

/// One turn for each provider that can be asked, in the order of their first parts.
fn turns_of(
    alloc: Global,
    parts: &[Part],
    asker: Option<&str>,
    peers: &[LogoutPeer],
) -> Result<Turns, NoMemory>
    ensures { IfOk result (λ made. made ≡ turns (option_copied asker.entry) peers.now parts.now) }
{
    let mut turns = Turns::new(alloc);
    for part in parts {
        if can_be_asked(part, asker, peers) && !has_turn(turns.as_slice(), &part.peer) {
            turns.push(Turn {
                peer: part.peer.copy()?,
                name: part.name.copy()?,
                indexes: indexes_of(alloc, parts, &part.peer)?,
            })?;
        }
    }
    Ok(turns)
}

/// Whom to ask for the end of sessions that were used for these parts: each provider but the asker that is one of the peers and
/// has an address for logout, in the order of first parts, with the name of its first part and the indexes of its parts.
pub fn make_plan(
    alloc: Global,
    parts: &[Part],
    asker: Option<&str>,
    peers: &[LogoutPeer],
) -> Result<Plan, NoMemory>
    ensures turns { IfOk result (λ plan. plan.turns ≡ turns (option_copied asker.entry) peers.now parts.now) }
    ensures skipped { IfOk result (λ plan. plan.skipped ≡ skipped (option_copied asker.entry) peers.now parts.now) }
{
    let turns = turns_of(alloc, parts, asker, peers)?;
    let skipped = parts.iter().any(|part| !is_asker(asker, &part.peer)
        && !has_address(peers, &part.peer));
    Ok(Plan { turns, skipped })
}

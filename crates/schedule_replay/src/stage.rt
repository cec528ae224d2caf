// Two nodes and the user agents that reach them, as the code holds them.

ghost use Rattle.std.specs.Prelude.{◌≡◌, ◌≤◌, ◌*◌, ℕ, Option, Result, Some, None, IfOk, OnOk, max, min, length, codes};
ghost use Rattle.std.specs.Option.{option_map};
ghost use Rattle.gate_journal.specs.declared.fault.OpenFault.{OpenFault};
ghost use Rattle.post_agent.specs.Views.{text_view};
ghost use Rattle.schedule_replay.specs.Counting as counting;
ghost use Rattle.schedule_replay.specs.Deployments.{OnSite, Arrives, ArrivesIfAny, Rounds, Starts, Exchanges, Hears, Obeys, saying, shows, unconnected, bytes_of, piece_at};
ghost use Rattle.schedule_replay.specs.Hosts.{Brings, Compacts, Known, Restarts};
ghost use Rattle.schedule_replay.specs.Lines as spec;
ghost use Rattle.schedule_replay.specs.Lines.{result_words};
ghost use Rattle.schedule_replay.specs.Steps.{is_starved};
ghost use Rattle.schedule_replay.specs.Views.{stage_in, outcome_view, OwnsBoth, SameStage, sending_view};

use crate::agents::Agents;
use crate::host::{HeldHost, Reply};
use crate::sending::Sending;
use crate::tally::Tally;
use crate::words::{answer_words, line, stopped_words};
use owned_values::NoMemory;
use post_agent::Site;
use saml_time::LAST;
use serve_loop::Node;
use std::alloc::Global;

/// The clock, the nodes, the agents, what was counted, and the lines of the step that is done.
#[derive(Drop)]
pub(crate) struct Stage<'s, 'd, 'p, 'e, S, P> {
    pub(crate) alloc: Global,
    pub(crate) clock: u64,
    pub(crate) sp: HeldHost<'s, 'd, S>,
    pub(crate) idp: HeldHost<'p, 'e, P>,
    pub(crate) agents: &'e mut Agents,
    pub(crate) tally: Tally,
    pub(crate) lines: &'e mut Vec<u8>,
}

/// How many bytes a request has.
pub(crate) fn length_of(sending: Option<&Sending>) -> usize
    ensures { result ≡ length (bytes_of (sending_view sending.entry)) }
{
    match sending {
        Some(sending) => sending.request.bytes.len(),
        None => 0,
    }
}

/// The piece of a request from this place on.
fn piece_at(at: usize, size: usize, bytes: &[u8]) -> &[u8]
    ensures { result.now ≡ piece_at at size bytes.now }
{
    let start = at.min(bytes.len());
    let end = start + size.min(bytes.len() - start);
    &bytes[start..end]
}

impl<S: Node, P: Node> Stage<'_, '_, '_, '_, S, P> {
    /// Puts a line of a step at the end.
    pub(crate) fn say(&mut self, number: usize, words: &str) -> Result<(), NoMemory>
        ensures ok { OnOk result (stage_in self.new ≡ saying number words.now (stage_in self.old)) }
        ensures sp { self.new.sp ≡ self.old.sp }
        ensures idp { self.new.idp ≡ self.old.idp }
    {
        let line = line(self.alloc, number, words)?;
        self.lines.extend_from_slice(line.as_bytes())?;
        Ok(())
    }

    /// A piece comes to the node of a site.
    fn bring(
        &mut self,
        site: Site,
        conn: u32,
        piece: &[u8],
    ) -> Result<Option<Option<Reply>>, NoMemory>
        requires own { OwnsBoth S.rules P.rules (stage_in self.old) }
        ensures brings { IfOk result
            (λ reply. OnSite S.rules P.rules site
            (λ _ node. Brings node self.old.clock conn piece.now (option_map outcome_view reply)) (stage_in self.old)
            (stage_in self.new)) }
        ensures own { OwnsBoth S.rules P.rules (stage_in self.new) }
        ensures objects { SameStage self.old self.new }
    {
        match site {
            Site::Sp => self.sp.bring(self.alloc, conn, piece, self.clock),
            Site::Idp => self.idp.bring(self.alloc, conn, piece, self.clock),
        }
    }

    /// What the node sent comes back, where it sent something: it is counted, received and printed.
    fn hear(
        &mut self,
        number: usize,
        sending: &Sending,
        reply: Option<Reply>,
    ) -> Result<(), NoMemory>
        ensures ok { OnOk result
            (Hears number sending.now (Some (outcome_view reply)) (stage_in self.old) (stage_in self.new)) }
        ensures sp { self.new.sp ≡ self.old.sp }
        ensures idp { self.new.idp ≡ self.old.idp }
    {
        let Some(reply) = reply else {
            return Ok(());
        };
        let site = sending.request.site;
        let answer = reply.bytes.as_slice();
        let seen = self
            .agents
            .come_back(sending.lost, sending.agent, site, answer)?;
        self.tally = self.tally.with_answer(&reply.path, seen);
        let words = answer_words(self.alloc, site, seen)?;
        self.say(number, words.as_str())
    }

    /// The disk of a node stopped, and the node was started again: that is counted and printed.
    fn tell_stop(&mut self, number: usize, site: Site) -> Result<(), NoMemory>
        ensures ok { OnOk result
            (stage_in self.new ≡ saying number (spec.stopped_words site)
            (record (stage_in self.old) { tally = counting.restarted self.old.tally })) }
        ensures sp { self.new.sp ≡ self.old.sp }
        ensures idp { self.new.idp ≡ self.old.idp }
    {
        self.tally = self.tally.with_restart();
        self.say(number, stopped_words(site))
    }

    /// A piece of a request comes to its node.
    fn arrive(&mut self, number: usize, sending: &Sending, piece: &[u8]) -> Result<(), NoMemory>
        requires own { OwnsBoth S.rules P.rules (stage_in self.old) }
        ensures ok { OnOk result
            (Arrives S.rules P.rules number
            sending.now piece.now (stage_in self.old) (stage_in self.new)) }
        ensures own { OwnsBoth S.rules P.rules (stage_in self.new) }
        ensures objects { SameStage self.old self.new }
    {
        let site = sending.request.site;
        match self.bring(site, sending.conn, piece)? {
            Some(reply) => self.hear(number, sending, reply),
            None => self.tell_stop(number, site),
        }
    }

    /// The piece from this place on comes, where there is one.
    fn arrive_at(
        &mut self,
        number: usize,
        at: usize,
        size: usize,
        sending: Option<&Sending>,
    ) -> Result<(), NoMemory>
        requires own { OwnsBoth S.rules P.rules (stage_in self.old) }
        ensures ok { OnOk result
            (ArrivesIfAny S.rules P.rules number
            (sending_view sending.entry) (piece_at at size (bytes_of (sending_view sending.entry)))
            (stage_in self.old) (stage_in self.new)) }
        ensures own { OwnsBoth S.rules P.rules (stage_in self.new) }
        ensures objects { SameStage self.old self.new }
    {
        let Some(sending) = sending else {
            return Ok(());
        };
        let piece = piece_at(at, size, sending.request.bytes.as_slice());
        if piece.is_empty() {
            return Ok(());
        }
        self.arrive(number, sending, piece)
    }

    /// A connection starts for a request, where there is one.
    fn start(&mut self, sending: Option<&Sending>) -> Result<(), NoMemory>
        requires own { OwnsBoth S.rules P.rules (stage_in self.old) }
        ensures ok { OnOk result
            (Starts S.rules P.rules (sending_view sending.entry) (stage_in self.old) (stage_in self.new)) }
        ensures own { OwnsBoth S.rules P.rules (stage_in self.new) }
        ensures objects { SameStage self.old self.new }
    {
        let Some(sending) = sending else {
            return Ok(());
        };
        match sending.request.site {
            Site::Sp => self.sp.start(sending.conn, self.clock),
            Site::Idp => self.idp.start(sending.conn, self.clock),
        }
    }

    /// Lets the connections of an earlier step go.
    fn disconnect(&mut self) -> Result<(), NoMemory>
        requires own { OwnsBoth S.rules P.rules (stage_in self.old) }
        ensures ok { OnOk result (stage_in self.new ≡ unconnected (stage_in self.old)) }
        ensures own { OwnsBoth S.rules P.rules (stage_in self.new) }
        ensures objects { SameStage self.old self.new }
    {
        self.sp.disconnect(self.alloc)?;
        self.idp.disconnect(self.alloc)
    }

    /// So many rounds: in each the next piece of either request comes.
    fn rounds(
        &mut self,
        number: usize,
        size: usize,
        first: Option<&Sending>,
        second: Option<&Sending>,
    ) -> Result<(), NoMemory>
        requires some { 1 ≤ size }
        requires own { OwnsBoth S.rules P.rules (stage_in self.old) }
        ensures ok { OnOk result
            ((rounds : ℕ) × (max (length (bytes_of (sending_view first.entry)))
            (length (bytes_of (sending_view second.entry))) ≤ rounds * size)
            × Rounds S.rules P.rules number size
            (sending_view first.entry) (sending_view second.entry) rounds (stage_in self.old)
            (stage_in self.new)) }
        ensures own { OwnsBoth S.rules P.rules (stage_in self.new) }
        ensures objects { SameStage self.old self.new }
    {
        let longest = length_of(first).max(length_of(second));
        for round in 0..longest.div_ceil(size) {
            let at = round * size;
            self.arrive_at(number, at, size, first)?;
            self.arrive_at(number, at, size, second)?;
        }
        Ok(())
    }

    /// One or two requests come to their nodes, in pieces of at most so many bytes, the two in turn.
    pub(crate) fn exchange(
        &mut self,
        number: usize,
        size: usize,
        first: Option<&Sending>,
        second: Option<&Sending>,
    ) -> Result<(), NoMemory>
        requires some { 1 ≤ size }
        requires own { OwnsBoth S.rules P.rules (stage_in self.old) }
        ensures ok { OnOk result
            (Exchanges S.rules P.rules number size
            (sending_view first.entry) (sending_view second.entry) (stage_in self.old) (stage_in self.new)) }
        ensures own { OwnsBoth S.rules P.rules (stage_in self.new) }
        ensures objects { SameStage self.old self.new }
    {
        self.disconnect()?;
        self.start(first)?;
        self.start(second)?;
        self.rounds(number, size, first, second)
    }

    /// Prints how a call ended that a schedule asks for, none where the disk stopped in it.
    fn show(
        &mut self,
        number: usize,
        site: Site,
        shown: Option<&'static str>,
    ) -> Result<(), NoMemory>
        ensures ok { OnOk result (stage_in self.new ≡ shows number site (text_view shown.entry) (stage_in self.old)) }
        ensures sp { self.new.sp ≡ self.old.sp }
        ensures idp { self.new.idp ≡ self.old.idp }
    {
        match shown {
            Some(words) => self.say(number, words),
            None => self.tell_stop(number, site),
        }
    }

    /// The node of a site is started again; how that ended, none where the disk stopped in it.
    fn start_again(&mut self, site: Site) -> Result<Option<&'static str>, NoMemory>
        requires own { OwnsBoth S.rules P.rules (stage_in self.old) }
        ensures ends { IfOk result (λ shown. (outcome : Option (Result (Unit {0}) OpenFault))
            × (text_view shown ≡ option_map (result_words (codes "restart")) outcome)
            × OnSite S.rules P.rules site
            (λ _ node. Known node (Restarts node) outcome) (stage_in self.old) (stage_in self.new)) }
        ensures own { OwnsBoth S.rules P.rules (stage_in self.new) }
        ensures objects { SameStage self.old self.new }
    {
        match site {
            Site::Sp => self.sp.start_again(self.alloc),
            Site::Idp => self.idp.start_again(self.alloc),
        }
    }

    /// A node is started again.
    pub(crate) fn restart(&mut self, number: usize, site: Site) -> Result<(), NoMemory>
        requires own { OwnsBoth S.rules P.rules (stage_in self.old) }
        ensures ok { OnOk result
            (Obeys S.rules P.rules number site
            (codes "restart") (λ _ node. Restarts node)
            (record (stage_in self.old) { tally = counting.restarted self.old.tally }) (stage_in self.new)) }
        ensures own { OwnsBoth S.rules P.rules (stage_in self.new) }
        ensures objects { SameStage self.old self.new }
    {
        let shown = self.start_again(site)?;
        self.tally = self.tally.with_restart();
        self.show(number, site, shown)
    }

    /// The node of a site compacts; how that ended, none where the disk stopped in it.
    fn compaction(&mut self, site: Site) -> Result<Option<&'static str>, NoMemory>
        requires own { OwnsBoth S.rules P.rules (stage_in self.old) }
        ensures ends { IfOk result (λ shown. (outcome : Option (Result (Unit {0}) OpenFault))
            × (text_view shown ≡ option_map (result_words (codes "compact")) outcome)
            × OnSite S.rules P.rules site
            (λ _ node. Known node (Compacts node (min self.old.clock LAST)) outcome) (stage_in self.old)
            (stage_in self.new)) }
        ensures own { OwnsBoth S.rules P.rules (stage_in self.new) }
        ensures objects { SameStage self.old self.new }
    {
        match site {
            Site::Sp => self.sp.compact(self.alloc, self.clock),
            Site::Idp => self.idp.compact(self.alloc, self.clock),
        }
    }

    /// A node compacts.
    pub(crate) fn compact(&mut self, number: usize, site: Site) -> Result<(), NoMemory>
        requires own { OwnsBoth S.rules P.rules (stage_in self.old) }
        ensures ok { OnOk result
            (Obeys S.rules P.rules number site
            (codes "compact") (λ _ node. Compacts node (min self.old.clock LAST)) (stage_in self.old)
            (stage_in self.new)) }
        ensures own { OwnsBoth S.rules P.rules (stage_in self.new) }
        ensures objects { SameStage self.old self.new }
    {
        let shown = self.compaction(site)?;
        self.show(number, site, shown)
    }

    /// Whether a disk found no memory.
    pub(crate) fn is_starved(&self) -> bool
        ensures { result ≡ is_starved (stage_in self.now) }
    {
        self.sp.disk.starved() || self.idp.disk.starved()
    }
}

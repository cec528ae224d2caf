// What a step of a schedule does.

ghost use Rattle.std.specs.Prelude.{◌≡◌, Some, None, OnOk, codes};
ghost use Rattle.post_agent.specs.Agents as agents;
ghost use Rattle.schedule_replay.specs.Deployments.{saying};
ghost use Rattle.schedule_replay.specs.Steps as spec;
ghost use Rattle.schedule_replay.specs.Views.{stage_in, OwnsBoth, SameStage};

use crate::sending::Sending;
use crate::stage::{Stage, length_of};
use owned_values::NoMemory;
use post_agent::{Outgoing, Site};
use schedules::{Pick, Step};
use serve_loop::Node;

/// The number of what a stop is to leave.
fn pick_number(pick: Pick) -> u8
    ensures { result ≡ spec.pick_number pick }
{
    match pick {
        Pick::Synced => 0,
        Pick::Pending => 1,
        Pick::Marked => 2,
    }
}

/// The request of an agent on a connection, where there is one.
fn sending_of(lost: bool, agent: char, conn: u32, request: Option<Outgoing>) -> Option<Sending>
    ensures { result ≡ spec.sending_of lost agent conn request }
{
    match request {
        Some(request) => Some(Sending {
            agent,
            conn,
            lost,
            request,
        }),
        None => None,
    }
}

impl<S: Node, P: Node> Stage<'_, '_, '_, '_, S, P> {
    /// Prints that an agent has nothing to send, where it has nothing.
    fn say_none(&mut self, number: usize, sending: &Option<Sending>) -> Result<(), NoMemory>
        ensures ok { OnOk result (stage_in self.new ≡ spec.saying_none number sending.now (stage_in self.old)) }
        ensures sp { self.new.sp ≡ self.old.sp }
        ensures idp { self.new.idp ≡ self.old.idp }
    {
        match sending {
            Some(_) => Ok(()),
            None => self.say(number, "none"),
        }
    }

    /// One request comes whole, where there is one.
    fn request(
        &mut self,
        number: usize,
        lost: bool,
        agent: char,
        request: Option<Outgoing>,
    ) -> Result<(), NoMemory>
        requires own { OwnsBoth S.rules P.rules (stage_in self.old) }
        ensures ok { OnOk result
            (spec.Requests S.rules P.rules number
            (spec.sending_of lost agent 0 request) (stage_in self.old) (stage_in self.new)) }
        ensures own { OwnsBoth S.rules P.rules (stage_in self.new) }
        ensures objects { SameStage self.old self.new }
    {
        let sending = sending_of(lost, agent, 0, request);
        self.say_none(number, &sending)?;
        let size = length_of(sending.as_ref()).max(1);
        self.exchange(number, size, sending.as_ref(), None)
    }

    /// Two requests come in turn, in pieces of so many bytes, where there are any.
    fn request_two(
        &mut self,
        number: usize,
        size: usize,
        first: Option<Sending>,
        second: Option<Sending>,
    ) -> Result<(), NoMemory>
        requires own { OwnsBoth S.rules P.rules (stage_in self.old) }
        ensures ok { OnOk result
            (spec.RequestsTwo S.rules P.rules number size
            first second (stage_in self.old) (stage_in self.new)) }
        ensures own { OwnsBoth S.rules P.rules (stage_in self.new) }
        ensures objects { SameStage self.old self.new }
    {
        self.say_none(number, &first)?;
        self.say_none(number, &second)?;
        self.exchange(number, size.max(1), first.as_ref(), second.as_ref())
    }

    /// The forms of two agents are posted in turn.
    fn pair(
        &mut self,
        number: usize,
        first: char,
        second: char,
        size: usize,
    ) -> Result<(), NoMemory>
        requires own { OwnsBoth S.rules P.rules (stage_in self.old) }
        ensures ok { OnOk result
            (spec.Does S.rules P.rules number
            (Step.Pair first second size) (stage_in self.old) (stage_in self.new)) }
        ensures own { OwnsBoth S.rules P.rules (stage_in self.new) }
        ensures objects { SameStage self.old self.new }
    {
        let one = sending_of(false, first, 0, self.agents.submit(first)?);
        let other = sending_of(false, second, 1, self.agents.submit(second)?);
        self.request_two(number, size, one, other)
    }

    /// A step in which an agent sends one request, or none.
    fn send(&mut self, number: usize, step: &Step) -> Result<(), NoMemory>
        requires own { OwnsBoth S.rules P.rules (stage_in self.old) }
        requires sends { spec.IsRequest step.now }
        ensures ok { OnOk result
            (spec.Does S.rules P.rules number step.now
            (stage_in self.old) (stage_in self.new)) }
        ensures own { OwnsBoth S.rules P.rules (stage_in self.new) }
        ensures objects { SameStage self.old self.new }
    {
        let (lost, agent, request) = match step {
            Step::Visit { agent, path } => (false, *agent, self.agents.visit(*agent, path)?),
            Step::Submit { agent } => (false, *agent, self.agents.submit(*agent)?),
            Step::Lose { agent } => (true, *agent, self.agents.submit(*agent)?),
            Step::Login {
                agent,
                user,
                password,
            } => (false, *agent, self.agents.login(*agent, user, password)?),
            Step::Follow { agent } => (false, *agent, self.agents.follow(*agent)?),
            Step::Leave { agent, site } => (false, *agent, self.agents.leave(*agent, *site)?),
            _ => unreachable!(),
        };
        self.request(number, lost, agent, request)
    }

    /// The clock of both nodes is set.
    fn set_clock(&mut self, number: usize, moment: u64) -> Result<(), NoMemory>
        ensures ok { OnOk result
            (stage_in self.new ≡ saying number (codes "now") (record (stage_in self.old) { clock = moment })) }
        ensures sp { self.new.sp ≡ self.old.sp }
        ensures idp { self.new.idp ≡ self.old.idp }
    {
        self.clock = moment;
        self.say(number, "now")
    }

    /// An agent forgets all.
    fn forget(&mut self, number: usize, agent: char) -> Result<(), NoMemory>
        ensures ok { OnOk result (spec.Forgets number agent (stage_in self.old) (stage_in self.new)) }
        ensures sp { self.new.sp ≡ self.old.sp }
        ensures idp { self.new.idp ≡ self.old.idp }
    {
        self.agents.forget(agent);
        self.say(number, "fresh")
    }

    /// A node's disk is to stop.
    fn crash(&mut self, number: usize, site: Site, call: u64, pick: Pick) -> Result<(), NoMemory>
        requires own { OwnsBoth S.rules P.rules (stage_in self.old) }
        ensures ok { OnOk result
            (stage_in self.new ≡ spec.armed number site
            (λ disk. record disk { stopping = call; pick = spec.pick_number pick }) (stage_in self.old)) }
        ensures own { OwnsBoth S.rules P.rules (stage_in self.new) }
        ensures objects { SameStage self.old self.new }
    {
        match site {
            Site::Sp => self.sp.disk.stop_at(call, pick_number(pick)),
            Site::Idp => self.idp.disk.stop_at(call, pick_number(pick)),
        }
        self.say(number, "armed")
    }

    /// A call of a node's disk is to fail.
    fn fail(&mut self, number: usize, site: Site, call: u64) -> Result<(), NoMemory>
        requires own { OwnsBoth S.rules P.rules (stage_in self.old) }
        ensures ok { OnOk result
            (stage_in self.new ≡ spec.armed number site (λ disk. record disk { failing = call }) (stage_in self.old)) }
        ensures own { OwnsBoth S.rules P.rules (stage_in self.new) }
        ensures objects { SameStage self.old self.new }
    {
        match site {
            Site::Sp => self.sp.disk.fail_at(call),
            Site::Idp => self.idp.disk.fail_at(call),
        }
        self.say(number, "armed")
    }

    /// Does a step.
    pub(crate) fn step(&mut self, number: usize, step: &Step) -> Result<(), NoMemory>
        requires own { OwnsBoth S.rules P.rules (stage_in self.old) }
        ensures ok { OnOk result
            (spec.Does S.rules P.rules number step.now
            (stage_in self.old) (stage_in self.new)) }
        ensures own { OwnsBoth S.rules P.rules (stage_in self.new) }
        ensures objects { SameStage self.old self.new }
    {
        match step {
            Step::Now { moment } => self.set_clock(number, *moment),
            Step::Pair {
                first,
                second,
                piece,
            } => self.pair(number, *first, *second, *piece),
            Step::Fresh { agent } => self.forget(number, *agent),
            Step::Restart { site } => self.restart(number, *site),
            Step::Crash { site, call, pick } => self.crash(number, *site, *call, *pick),
            Step::Fail { site, call } => self.fail(number, *site, *call),
            Step::Compact { site } => self.compact(number, *site),
            _ => self.send(number, step),
        }
    }
}

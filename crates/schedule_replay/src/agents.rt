// The user agents of a schedule, by their names.

ghost use Rattle.std.specs.Prelude.{◌≡◌, false, IfOk};
ghost use Rattle.post_agent.specs.Agents as agents;
ghost use Rattle.schedule_replay.specs.Deployments.{ComesBack, Keeps};
ghost use Rattle.schedule_replay.specs.Views.{kept_by};

use owned_values::{NoMemory, Text};
use post_agent::{Agent, Outgoing, Seen, Site};
use std::alloc::Global;
use std::collections::BTreeMap;

/// The agents that have received something. Any other has seen nothing.
#[derive(Drop)]
pub(crate) struct Agents {
    alloc: Global,
    seen: BTreeMap<char, Agent>,
}

impl Agents {
    /// Agents that have seen nothing. It takes no memory.
    pub(crate) fn new(alloc: Global) -> Agents
        ensures { kept_by result.seen ≡ (λ _. agents.fresh) }
    {
        Agents {
            alloc,
            seen: BTreeMap::new(alloc),
        }
    }

    /// What an agent sends to visit a path.
    pub(crate) fn visit(&self, name: char, path: &Text) -> Result<Option<Outgoing>, NoMemory>
        ensures { IfOk result (λ sent. sent ≡ Some (agents.visited path.now (kept_by self.now.seen name))) }
    {
        match self.seen.get(&name) {
            Some(agent) => agent.visit(path.as_str()),
            None => Agent::new(self.alloc).visit(path.as_str()),
        }
    }

    /// What an agent sends to post its form.
    pub(crate) fn submit(&self, name: char) -> Result<Option<Outgoing>, NoMemory>
        ensures { IfOk result (λ sent. sent ≡ agents.submitted (kept_by self.now.seen name)) }
    {
        match self.seen.get(&name) {
            Some(agent) => agent.submit(),
            None => Ok(None),
        }
    }

    /// What an agent sends to fill in its login page.
    pub(crate) fn login(
        &self,
        name: char,
        user: &Text,
        password: &Text,
    ) -> Result<Option<Outgoing>, NoMemory>
        ensures { IfOk result (λ sent. sent ≡ agents.logged_in user.now password.now (kept_by self.now.seen name)) }
    {
        match self.seen.get(&name) {
            Some(agent) => agent.login(user.as_str(), password.as_str()),
            None => Ok(None),
        }
    }

    /// What an agent sends to follow its last Location.
    pub(crate) fn follow(&self, name: char) -> Result<Option<Outgoing>, NoMemory>
        ensures { IfOk result (λ sent. sent ≡ agents.followed (kept_by self.now.seen name)) }
    {
        match self.seen.get(&name) {
            Some(agent) => agent.follow(),
            None => Ok(None),
        }
    }

    /// What an agent sends to log out at a node.
    pub(crate) fn leave(&self, name: char, site: Site) -> Result<Option<Outgoing>, NoMemory>
        ensures { IfOk result (λ sent. sent ≡ Some (agents.left site (kept_by self.now.seen name))) }
    {
        match self.seen.get(&name) {
            Some(agent) => agent.leave(site),
            None => Agent::new(self.alloc).leave(site),
        }
    }

    /// An agent receives an answer.
    fn receive(&mut self, name: char, site: Site, answer: &[u8]) -> Result<Seen, NoMemory>
        ensures { IfOk result
            (λ seen. ComesBack false name site answer.now (kept_by self.old.seen) seen (kept_by self.new.seen)) }
    {
        let mut agent = match self.seen.remove(&name) {
            Some(agent) => agent,
            None => Agent::new(self.alloc),
        };
        let seen = agent.receive(site, answer)?;
        self.seen.insert(name, agent)?;
        Ok(seen)
    }

    /// An answer comes back to an agent, or is lost on its way; what it shows.
    pub(crate) fn come_back(
        &mut self,
        lost: bool,
        name: char,
        site: Site,
        answer: &[u8],
    ) -> Result<Seen, NoMemory>
        ensures { IfOk result
            (λ seen. ComesBack lost name site answer.now (kept_by self.old.seen) seen (kept_by self.new.seen)) }
    {
        if lost {
            return Agent::new(self.alloc).receive(site, answer);
        }
        self.receive(name, site, answer)
    }

    /// An agent forgets all. It takes no memory.
    pub(crate) fn forget(&mut self, name: char)
        ensures { Keeps name agents.fresh (kept_by self.old.seen) (kept_by self.new.seen) }
    {
        self.seen.remove(&name);
    }
}

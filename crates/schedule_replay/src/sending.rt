// A request on its way.

use post_agent::Outgoing;

/// A request of an agent, on a connection of its own, as contracts see it.
#[derive(Debug, Drop)]
pub struct Sending {
    /// The agent's name.
    pub agent: char,
    /// The number of the connection.
    pub conn: u32,
    /// Whether the answer is lost on its way.
    pub lost: bool,
    /// Its bytes, and the node that they are for.
    pub request: Outgoing,
}

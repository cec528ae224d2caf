//! Serving: a node answers the requests that connections bring, one after the other.
//!
//! ```
//! let served = serve(alloc, &mut node, &mut link, &mut disk, &mut clock, 1_000_000)?;
//! if served.stopped {
//!     // the link gave Stop when served.events events were taken
//! }
//! ```
//!
//! | An event | What is done |
//! |---|---|
//! | a connection starts | it is kept; where it was kept already, it ended and starts anew |
//! | as many are kept as there may be | the page of 503 is sent |
//! | a piece, and its connection's bytes are a whole request | it is answered, and the connection is let go |
//! | a piece, and they are refused | the page of the status is sent, and the connection is let go |
//! | a piece, and they are the beginning of a request | they are kept |
//! | a piece of a connection that is not kept | it is passed over |
//! | there is no memory for a start or a piece | the page of the verdict NoMemory, 52, is sent, and it is let go |
//! | a connection ends | it is let go |
//!
//! The node answers at the clock's moment, or at [`LAST`](saml_time::LAST) where that is less. A connection on which
//! something was sent is closed behind it, and no other. A `send` that fails ends its connection alone. No other call of
//! the link is made, and none in another order: an event is taken once the answer to the one before is out.
//!
//! A contract sees a list of turns, one for each event (`specs/Turns.antt`). Each is a case with a name, and says what
//! it does to the connections, the node, the disk, the link and the clock; of the node it cites the node's own `step`
//! and nothing else. What a crash may leave at some moment of the call is what it may leave at its start, or inside one
//! of the answers; and since each point between two turns, what it may leave of the disk there, or inside the answer to
//! a later request (`LeavesInOrder` of `specs/Serving.antt`). By the [`laws`] the requests that the node was asked are
//! the whole ones that the events complete, as `conn_table` defines it, and a disk that tells goes on telling.
//!
//! [`serve`] answers [`ServeFault::LinkFault`] only where the link's count of faults rose, and [`ServeFault::NoMemory`]
//! only before it began.
//!
//! # What is proved
//!
//! The trait `Node`: an answer is one step of the node, whatever the disk (`step`, `own`, `moments`). `serve`: the
//! events that the link gave were taken one after the other, each by its case (`Serves`, `Run`, `Does`): a connection
//! is taken, refused with 503, starved with 52 or ended; a piece is passed over, kept, refused with its status,
//! starved, or completes a request, which the node answers at the lesser of the clock's moment and the last of the year
//! 9999; what goes out on a connection is the answer's bytes, by one `send`, or the first of them where this `send`
//! failed and its count rose, and behind them this connection is closed, and no other (`GoesOut`). So of a link that
//! tells its calls these are all that were made, in the order of the turns. It ends at Stop, or when the budget is used
//! up (`ends`); LinkFault comes only where a `next` failed and the link's count rose; at every moment a crash leaves
//! what it may leave at the start, or inside one of the answers; there are moments of the disk, one for each point
//! between two turns and in their order, since which a crash might have left all that it may leave of the disk at that
//! point, and nothing else but what it may leave inside the answer to a later request (`LeavesInOrder`); and once a
//! request is answered only what one inside that answer might leave (`IsAnswered`). Laws: the requests that the node
//! was asked are the whole ones that the events complete (`requests_are_completions`), each at the next moment of the
//! clock (`moments_come_in_order`); the disk's count of faults never falls from one to the next (`faults_never_fall`),
//! and rises only at requests that are answered by 50 (`faults_are_answered`); a disk that tells goes on telling, and
//! reads as one of its images (`a_disk_that_tells_goes_on_telling`, `a_disk_goes_on_reading_an_image`).
#![tactic(auto)]

mod codes;
pub mod laws;
mod limits;
mod node;
mod served;
mod serving;
mod turns;

pub use limits::PIECE_ROOM;
pub use node::Node;
pub use served::{ServeFault, Served};
pub use serving::serve;

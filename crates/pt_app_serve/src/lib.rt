//! The desk over sockets: one request on each connection, one connection after another, none of which holds the desk.
#![tactic(auto)]

pub use accepting::{Accepts, Connection};
pub use bounded::{LONGEST_READING, LONGEST_SERVING, LONGEST_WAIT, Waits};
pub use closing::{LONGEST_CLOSING, MOST_DROPPED, Parting, SeesOff, drop_rest};
pub use connection::{Answering, answer_connection, answer_in_time, serve_one, serve_one_by};
pub use listening::{Listens, Port};
pub use serving::{TellsTime, moment_at, serve};

mod accepting;
mod bounded;
mod closing;
mod connection;
mod listening;
mod serving;

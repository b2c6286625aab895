//! What the commands of the program do, over whatever makes and opens files.
#![tactic(auto)]

pub use asking::ask_file;
pub use commands::{do_words, do_words_by};
pub use files::{DeskFiles, HostFiles};
pub use making::init_file;
pub use migrating::migrate_file;
pub use ports::{DeskPorts, OwnPorts};
pub use serving::serve_file;

mod asking;
mod commands;
mod faults;
mod files;
mod known;
mod making;
mod migrating;
mod ports;
mod serving;

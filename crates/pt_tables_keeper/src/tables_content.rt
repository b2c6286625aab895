//! The content of a database's tables, which only clauses read.
ghost use Rattle.std.specs.Prelude.{◌≡◌};
ghost use Rattle.std.specs.Borrow.{ftrue};
ghost use Rattle.pt_desk_rules.specs.State.{State};
ghost use Rattle.pt_tables_keeper.specs.Coding.{state_code};

use pt_desk_rules::Change;
use pt_desk_store::ListKeeper;
use std::marker::Model;

/// The content of a database's tables. It takes no memory, and its functions do nothing at run time.
///
/// The invariant of its owner, which also has the connection, ties it to the tables.
#[derive(Drop)]
pub struct Content {
    pub ghost content: { State } by { state_code },
}

impl Model for Content {
    ghost also_owns = { λ _. ftrue };
}

impl Content {
    ghost use Rattle.pt_desk_rules.specs.State.{applied};

    /// The content of these lists.
    pub fn of(_lists: &ListKeeper) -> Content
        ensures value { result.content ≡ _lists.now.content }
    {
        Content {}
    }

    /// The content with the change made.
    pub fn after(&self, _change: &Change) -> Content
        ensures value { result.content ≡ applied _change.now self.now.content }
    {
        Content {}
    }
}

//! What a keeper over a database has in memory of its tables.
ghost use Rattle.std.specs.Prelude.{◌≡◌, OnOk};
ghost use Rattle.pt_desk_store.specs.Listed.{HasKnownRoom, known_of};
ghost use Rattle.pt_desk_rules.specs.State.{applied};

use crate::tables_content::Content;
use pt_desk_rules::Change;
use pt_desk_store::ListKeeper;
use std::alloc::AllocError;
use std::marker::Model;

/// The settings of a desk, in memory. The rest of the content is in tables; here only clauses read it.
#[derive(Drop)]
pub struct Known {
    /// They have no accepted write, rider, entry, trip or planned route.
    lists: ListKeeper,
    tables: Content,
}

impl Model for Known {
    ghost use Rattle.std.specs.Prelude.{◌≡◌};
    ghost use Rattle.pt_desk_store.specs.Listed.{known_of};
    ghost use Rattle.pt_tables_keeper.specs.Known.{KnownContent};

    ghost Value = { KnownContent };

    ghost view = { λ k. record { content = k.tables.content; room = k.lists.room } };

    ghost invariant = { λ k. k.lists.content ≡ known_of k.tables.content };
}

impl Known {
    /// The known part of this content, in lists that have nothing else.
    pub fn of(lists: ListKeeper, tables: Content) -> Known
        requires known { lists.content ≡ known_of tables.content }
        ensures content { result.content ≡ tables.content }
    {
        Known { lists, tables }
    }

    /// The lists of what is known.
    pub(crate) fn lists(&self) -> &ListKeeper
        ensures known { result.now.content ≡ known_of self.now.content }
    {
        &self.lists
    }

    /// Reserves memory for what the change puts into the lists.
    pub(crate) fn reserve(&mut self, change: &Change) -> Result<(), AllocError>
        ensures content { self.new.content ≡ self.old.content }
        ensures room { OnOk result (HasKnownRoom change.now self.new.room) }
    {
        self.lists.reserve_known(change)
    }

    /// Makes the change, for which memory was reserved. It allocates none.
    pub(crate) fn make(&mut self, change: Change)
        requires room { HasKnownRoom change self.old.room }
        ensures content { self.new.content ≡ applied change self.old.content }
    {
        self.tables = self.tables.after(&change);
        self.lists.make_known(change);
    }
}

//! `pt_tables`: a desk in a database.
use pt_tables::{OpenFault, SqlKeeper, adopt, create, migrate};
use sqlite::{Alter, Connection};
use std::alloc::Global;

pub fn made<S: Alter>(
    alloc: Global,
    conn: Connection<S>,
    admin_key: &[u8],
) -> Result<SqlKeeper<S>, (Connection<S>, OpenFault)> {
    create(alloc, conn, admin_key)
}

pub fn adopted<S: Alter + Drop>(
    alloc: Global,
    conn: Connection<S>,
) -> Result<SqlKeeper<S>, (S, OpenFault)> {
    adopt(alloc, conn)
}

pub fn released<S: Alter>(keeper: SqlKeeper<S>) -> Connection<S> {
    keeper.release()
}

pub fn migrated<S: Alter>(alloc: Global, conn: &mut Connection<S>) -> Result<(), OpenFault> {
    migrate(alloc, conn)
}

pub fn refusal(code: u16, table: u8) -> OpenFault {
    OpenFault { code, table }
}

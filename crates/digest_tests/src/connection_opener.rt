//! An opener of the database of one connection, over any store.
use case_keeper::keeper::KeepFault;
use desk_filing::opener::{DigestOpener, MissingDatabase};
use digest_sqlite::sql_digest_keeper::SqlDigestKeeper;
use sqlite::{Alter, Connection};
use std::alloc::Global;
use std::process::Abort;

/// An opener that has under every path the database of a connection, which it opens once. What is
/// on file there is not known. An opening behind that is refused and counted as a fault.
#[derive(Drop)]
pub(crate) struct ConnectionOpener<S: Alter> {
    connection: Option<Connection<S>>,
    faults: u64,
    alloc: Global,
}

impl<S: Alter + Drop> ConnectionOpener<S> {
    /// An opener of the database of this connection.
    pub(crate) fn of(alloc: Global, connection: Connection<S>) -> ConnectionOpener<S> {
        ConnectionOpener {
            connection: Some(connection),
            faults: 0,
            alloc,
        }
    }

    /// The connection: of the keeper that was opened, if it was.
    pub(crate) fn into_connection(
        self,
        rt: &impl Abort,
        opened: Option<SqlDigestKeeper<S>>,
    ) -> Connection<S> {
        match opened {
            Some(keeper) => keeper.into_connection(),
            None => self.connection.expect(rt, "a connection"),
        }
    }
}

impl<S: Alter + Drop> DigestOpener for ConnectionOpener<S> {
    ghost use Rattle.std.specs.Prelude.{false, None};
    ghost use Rattle.desk_filing.specs.DigestOpeners.{DigestOpenerState};

    type Book = SqlDigestKeeper<S>;

    // Its faults alone are known.
    ghost state = { λ opener.
        record { tells = false; kept = (λ path. None); faults = opener.faults } };

    fn open(
        &mut self,
        _path: &str,
        _missing: MissingDatabase,
    ) -> Result<SqlDigestKeeper<S>, KeepFault> {
        match self.connection.take() {
            Some(connection) => Ok(SqlDigestKeeper::new(self.alloc, connection)),
            None => {
                self.faults = self.faults.saturating_add(1);
                Err(KeepFault::Failed)
            }
        }
    }
}

//! Commands over a connection to a database, over any store.
use crate::calls::{CommandAnswer, FilingEnd, file_by_desk, said_nothing, say_over_keeper};
use crate::connection_opener::ConnectionOpener;
use crate::keepers::say_together;
use crate::tables::{append_rows, digest_rows, put_case};
use audit_base::faults::NoMemory;
use case_sqlite::sql_keeper::SqlKeeper;
use digest_sqlite::sql_digest_keeper::SqlDigestKeeper;
use sqlite::{Alter, Connection};
use std::alloc::Global;
use std::process::Abort;

/// What is done with a database.
#[derive(Clone, Copy)]
pub(crate) enum Command {
    /// The words of a command of `casebook`, behind the name of the database.
    Casebook(&'static str),
    /// The words of a filing of `desk`.
    Desk(&'static str),
    /// Its keeper files cases together.
    Together,
    /// Something else puts a row of these columns into the table of cases.
    Put(&'static str),
    /// It is listed by `casebook`, and its rows of digests are shown behind that.
    Show,
}

/// What a command says, and the connection.
pub(crate) type AnswerAndConnection<S> = (Result<CommandAnswer, NoMemory>, Connection<S>);

fn by_casebook<S: Alter>(
    alloc: Global,
    line: &str,
    connection: Connection<S>,
) -> AnswerAndConnection<S> {
    let (said, keeper) = say_over_keeper(alloc, line, SqlKeeper::new(alloc, connection));
    (said, keeper.into_connection())
}

fn by_desk<R: AllocGlobal + Abort, S: Alter + Drop>(
    rt: &R,
    line: &str,
    connection: Connection<S>,
) -> AnswerAndConnection<S> {
    let mut opener = ConnectionOpener::of(rt.alloc(), connection);
    let FilingEnd { said, book } = file_by_desk(rt.alloc(), line, &mut opener);
    (said, opener.into_connection(rt, book))
}

fn together<S: Alter>(alloc: Global, connection: Connection<S>) -> AnswerAndConnection<S> {
    let mut keeper = SqlDigestKeeper::new(alloc, connection);
    let said = say_together(alloc, &mut keeper);
    (Ok(said), keeper.into_connection())
}

/// Says with status 0 that the row was put into the table, and with 1 that it was not.
fn put<S: Alter>(
    alloc: Global,
    columns: &str,
    mut connection: Connection<S>,
) -> AnswerAndConnection<S> {
    let said = match put_case(alloc, &mut connection, columns) {
        Ok(()) => said_nothing(alloc, 0),
        Err(_) => said_nothing(alloc, 1),
    };
    (Ok(said), connection)
}

/// Appends the rows of digests to what was said, with the status of a keeper that failed where they
/// are not shown.
fn with_digests<S: Alter>(
    mut said: CommandAnswer,
    connection: &mut Connection<S>,
) -> Result<CommandAnswer, NoMemory> {
    match digest_rows(connection) {
        Ok(rows) => append_rows(&rows, &mut said.lines)?,
        Err(_) => said.number = 8,
    }
    Ok(said)
}

fn show<S: Alter>(alloc: Global, connection: Connection<S>) -> AnswerAndConnection<S> {
    let (said, mut connection) = by_casebook(alloc, "list", connection);
    match said {
        Ok(said) => (with_digests(said, &mut connection), connection),
        Err(fault) => (Err(fault), connection),
    }
}

/// Does a command.
pub(crate) fn answer<R: AllocGlobal + Abort, S: Alter + Drop>(
    rt: &R,
    command: Command,
    connection: Connection<S>,
) -> AnswerAndConnection<S> {
    match command {
        Command::Casebook(line) => by_casebook(rt.alloc(), line, connection),
        Command::Desk(line) => by_desk(rt, line, connection),
        Command::Together => together(rt.alloc(), connection),
        Command::Put(columns) => put(rt.alloc(), columns, connection),
        Command::Show => show(rt.alloc(), connection),
    }
}

ghost use Rattle.std.specs.Prelude.{ℕ, List, Result, Ok, Err, IfErr, IfOk, ⊤};
ghost use Rattle.std.specs.declared.io.Error.{Error as IoError};
ghost use Rattle.sqlite.specs.Files.{file_state};
ghost use Rattle.sqlite.specs.Start.{FindsIn};
ghost use Rattle.sqlite.specs.State.{HasCleanDisk};
ghost use Rattle.sqlite.specs.declared.error.Error.{Error as StoreError};
ghost use Rattle.sqlite_wal.specs.Files.{image_at};

use sqlite::{Connection, Error, ErrorCode};
use sqlite_std_file::{FileFrom, Start};
use sqlite_store::FileStore;
use std::{fs, io};

/// What makes, finds and reads files, and opens the databases in them.
///
/// Only a call gives `makes`, `finds`, `reads`, `connects` or `leaves`. Code that is proved over every type cannot make
/// them up, so a clause that names them says which calls were made, of which file, in which order.
pub trait DeskFiles {
    /// A connection to the database in a file.
    type Connected;

    /// A call of `make` of this file, with this result, leads from one state to the next.
    ghost makes: { Self → List ℕ → Result (Unit {0}) IoError → Self → Type 0 };

    /// A call of `find` of this file, with this result, leads from one state to the next.
    ghost finds: { Self → List ℕ → Result (Unit {0}) IoError → Self → Type 0 };

    /// A call of `read` of this file, with these bytes or this error, leads from one state to the next.
    ghost reads: { Self → List ℕ → Result (List ℕ) IoError → Self → Type 0 };

    /// A call of `connect` to this file, with this result, leads from one state to the next.
    ghost connects: { Self → List ℕ → Result Self.Connected StoreError → Self → Type 0 };

    /// A call of `leave` of this connection leads from one state to the next.
    ghost leaves: { Self → Self.Connected → Self → Type 0 };

    /// Makes an empty file, which must not exist.
    fn make(&mut self, file: &str) -> io::Result<()>
        ensures { makes self.old file.now result self.new };

    /// Opens a file, which must exist, and closes it.
    fn find(&mut self, file: &str) -> io::Result<()>
        ensures { finds self.old file.now result self.new };

    /// The bytes of a file, which must exist.
    fn read(&mut self, file: &str) -> io::Result<Vec<u8>>
        ensures bytes { IfOk result (λ bytes. reads self.old file.now (Ok bytes.items) self.new) }
        ensures error { IfErr result (λ error. reads self.old file.now (Err error) self.new) };

    /// Opens the database in a file.
    fn connect(&mut self, file: &str) -> Result<Self::Connected, Error>
        ensures { connects self.old file.now result self.new };

    /// Lets go of a connection.
    fn leave(&mut self, conn: Self::Connected)
        ensures { leaves self.old conn self.new };
}

/// The machine's own files. One of them may be opened, whose bytes are those of `B`.
#[derive(Drop)]
pub struct HostFiles<'a, B: Start> {
    rt: &'a HostRuntime,
    start: Option<B>,
}

impl<'a, B: Start> HostFiles<'a, B> {
    /// None of them is open yet.
    pub fn new(rt: &'a HostRuntime, start: B) -> HostFiles<'a, B> {
        HostFiles {
            rt,
            start: Some(start),
        }
    }
}

/// The kit does not state what makes a file, and which file is open. An opened database is what the bytes hold.
impl<B: Start> DeskFiles for HostFiles<'_, B> {
    type Connected = Connection<FileStore<FileFrom<B>>>;

    ghost makes = { λ _ _ _ _. ⊤ };

    ghost finds = { λ _ _ _ _. ⊤ };

    ghost reads = { λ _ _ _ _. ⊤ };

    ghost connects = { λ _ _ result _. IfOk result (λ conn. HasCleanDisk (file_state conn)
        → FindsIn (image_at B.Start) (file_state conn)) };

    ghost leaves = { λ _ _ _. ⊤ };

    fn make(&mut self, file: &str) -> io::Result<()> {
        match fs::File::create_new(self.rt, file) {
            Ok(_) => Ok(()),
            Err(error) => Err(error),
        }
    }

    fn find(&mut self, file: &str) -> io::Result<()> {
        match fs::open(self.rt, file) {
            Ok(_) => Ok(()),
            Err(error) => Err(error),
        }
    }

    fn read(&mut self, file: &str) -> io::Result<Vec<u8>> {
        fs::read(self.rt, file)
    }

    fn connect(&mut self, file: &str) -> Result<Connection<FileStore<FileFrom<B>>>, Error> {
        let Some(start) = self.start.take() else {
            return Err(Error::SqliteFailure(ErrorCode::CannotOpen));
        };
        match Connection::open_from(self.rt, file, false, start) {
            Ok(conn) => Ok(conn),
            Err((error, _)) => Err(error),
        }
    }

    fn leave(&mut self, conn: Connection<FileStore<FileFrom<B>>>)
        ensures { ⊤ }
    {
        drop(conn);
    }
}

ghost use Rattle.std.specs.Prelude.{◌≡◌, ◌≤◌, ◌<◌, ◌+◌, length, IfOk};
ghost use Rattle.std.specs.Io.KnownBytes.{ReadConsumes};
ghost use Rattle.pt_http_inbox.specs.Reads.{most_reads};

use std::io;
use std::io::Read;

/// A reader that counts its reads. The reader is private to this file, so nothing else reads from it.
#[derive(Drop)]
pub(crate) struct CountedReader<R> {
    reader: R,
    reads: u32,
    ghost few_reads: { reads ≤ most_reads },
}

impl<R: Read + Drop> CountedReader<R> {
    /// A reader that has not been read from.
    pub(crate) fn new(reader: R) -> Self
        ensures reader { result.reader ≡ reader }
        ensures fresh { result.reads ≡ 0 }
    {
        CountedReader { reader, reads: 0 }
    }

    /// How many reads were counted.
    pub(crate) fn reads(&self) -> u32
        ensures value { result ≡ self.now.reads }
        ensures few { result ≤ most_reads }
    {
        self.reads
    }

    /// Reads once. It counts as a read, whatever the result.
    pub(crate) fn read(&mut self, piece: &mut [u8]) -> io::Result<usize>
        requires { self.old.reads < most_reads }
        ensures counted { self.new.reads ≡ self.old.reads + 1 }
        ensures bytes { ReadConsumes (R.remaining self.old.reader) (R.remaining self.new.reader) result piece.new }
        ensures within { IfOk result (λ count. count ≤ length piece.new) }
    {
        self.reads += 1;
        self.reader.read(piece)
    }

    /// Begins to count anew.
    pub(crate) fn count_anew(&mut self)
        ensures reader { self.new.reader ≡ self.old.reader }
        ensures fresh { self.new.reads ≡ 0 }
    {
        self.reads = 0;
    }
}

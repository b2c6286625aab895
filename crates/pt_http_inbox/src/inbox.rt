ghost use Rattle.std.specs.Prelude.{◌≡◌, ◌≤◌, ◌<◌, ◌+◌, ◌*◌, ◌++◌, ℕ, List, [], Some, None, Ok, true, false};
ghost use Rattle.std.specs.Prelude.{length, drop, IfOk, IfErr, OnErr, IfSome};
ghost use Rattle.std.specs.Io.KnownBytes.{IsAtEnd, ReadConsumes};
ghost use Rattle.std.specs.IoError.{error_kind};
ghost use Rattle.pt_base_values.specs.Fault.{fault};
ghost use Rattle.pt_base_values.specs.declared.fault.Cause.TheVariants as cause;
ghost use Rattle.pt_http_inbox.specs.Head.{IsHead, HasNoHead};
ghost use Rattle.pt_http_inbox.specs.Reads.{most_reads};

use crate::LONGEST_HEAD;
use crate::counted_reader::CountedReader;
use crate::head::{Front, Head, front_of};
use arrayvec::ArrayVec;
use pt_base_values::{Cause, Fault};
use std::alloc::{AllocError, Global};
use std::io;
use std::io::{ErrorKind, Read};

/// The most bytes of a body.
pub const LONGEST_BODY: usize = 16_384;

/// The most reads for a request.
pub const MOST_READS: u32 = 65_536;

/// The room for a request, in bytes.
const ROOM: usize = LONGEST_HEAD + LONGEST_BODY;

/// The most bytes that a read asks for.
const PIECE: usize = 4_096;

/// A reader, with its bytes that have come and are not yet consumed. It allocates once, for one whole request.
#[derive(Drop)]
pub struct Inbox<R> {
    /// It counts the reads since the last request was dropped.
    reader: CountedReader<R>,
    bytes: Box<ArrayVec<u8, ROOM>>,
}

impl<R: Read + Drop> Inbox<R> {
    ghost use Rattle.pt_http_inbox.specs.Inbox.{buffer, reader_of, reads_of, ReadsOn};

    /// An inbox that holds nothing yet. The error is out of memory.
    pub fn new(alloc: Global, reader: R) -> Result<Self, AllocError>
        ensures empty { IfOk result (λ inbox. buffer inbox ≡ []) }
        ensures reader { IfOk result (λ inbox. reader_of inbox ≡ reader) }
        ensures fresh { IfOk result (λ inbox. reads_of inbox ≡ 0) }
    {
        let bytes = Box::new(alloc, ArrayVec::new()).map_err(AllocError::from)?;
        let reader = CountedReader::new(reader);
        Ok(Inbox { reader, bytes })
    }

    /// The bytes that have come and are not yet consumed.
    pub fn buffer(&self) -> &[u8]
        ensures value { result.now ≡ buffer self.now }
        ensures within { length result.now ≤ ROOM }
    {
        self.bytes.as_slice()
    }

    /// Reads once; `false` at the end of the input. The error is a failed read, or too many reads.
    pub fn read_more(&mut self) -> Result<bool, Fault>
        requires { length (buffer self.old) < ROOM }
        ensures reads { ReadsOn R.remaining self.old self.new }
        ensures counted { IfOk result (λ _. reads_of self.old < reads_of self.new) }
        ensures more { result ≡ Ok true → length (buffer self.old) < length (buffer self.new) }
        ensures end { result ≡ Ok false → IsAtEnd (R.remaining (reader_of self.new)) }
        ensures nothing { result ≡ Ok false → buffer self.new ≡ buffer self.old }
        ensures err { OnErr result (buffer self.new ≡ buffer self.old) }
        ensures fault { IfErr result (λ error. error ≡ fault cause.ReadFailed) }
    {
        let mut piece = [0; PIECE];
        let room = self.bytes.remaining_capacity().min(PIECE);
        let Ok(count) = self.read_piece(&mut piece[..room]) else {
            return Err(Fault::of(Cause::ReadFailed));
        };
        let _fits = self.bytes.try_extend_from_slice(&piece[..count]);
        Ok(count > 0)
    }

    /// Reads, and again while the reader is interrupted. The error is an interruption only if no read is left.
    fn read_piece(&mut self, piece: &mut [u8]) -> io::Result<usize>
        ensures bytes { ReadConsumes (R.remaining (reader_of self.old)) (R.remaining (reader_of self.new))
            result piece.new }
        ensures within { IfOk result (λ count. count ≤ length piece.new) }
        ensures buffer { buffer self.new ≡ buffer self.old }
        ensures counted { reads_of self.old ≤ reads_of self.new }
        ensures one_more { IfOk result (λ _. reads_of self.old < reads_of self.new) }
        ensures retried { IfErr result (λ error. error_kind error ≡ ErrorKind.Interrupted
            → reads_of self.new ≡ most_reads) }
    {
        for _ in self.reader.reads()..MOST_READS {
            match self.reader.read(piece) {
                Err(error) if error.kind() == ErrorKind::Interrupted => {}
                answer => return answer,
            }
        }
        Err(ErrorKind::Interrupted.into())
    }

    /// Reads until a head is at the front, and returns where its parts are; `None` if the input begins with no head.
    /// The error is a failed read, or too many reads.
    pub fn read_head(&mut self) -> Result<Option<Head>, Fault>
        ensures reads { ReadsOn R.remaining self.old self.new }
        ensures head { IfOk result (λ found. IfSome found (IsHead (buffer self.new))) }
        ensures none { result ≡ Ok None → (more : List ℕ) → R.remaining (reader_of self.new) ≡ Some more
            → HasNoHead (buffer self.new ++ more) }
        ensures fault { IfErr result (λ error. error ≡ fault cause.ReadFailed) }
    {
        for _ in 0..=MOST_READS {
            match front_of(self.buffer()) {
                Front::Head(head) => return Ok(Some(head)),
                Front::Never => return Ok(None),
                Front::Open => {
                    if !self.read_more()? {
                        return Ok(None);
                    }
                }
            }
        }
        Err(Fault::of(Cause::ReadFailed))
    }

    /// Reads until `count` bytes are held; `false` if the input ends before. The error is a failed read, or too many
    /// reads.
    pub fn read_up_to(&mut self, count: usize) -> Result<bool, Fault>
        requires { count ≤ ROOM }
        ensures reads { ReadsOn R.remaining self.old self.new }
        ensures enough { result ≡ Ok true → count ≤ length (buffer self.new) }
        ensures short { result ≡ Ok false → length (buffer self.new) < count }
        ensures end { result ≡ Ok false → IsAtEnd (R.remaining (reader_of self.new)) }
        ensures fault { IfErr result (λ error. error ≡ fault cause.ReadFailed) }
    {
        for _ in 0..=MOST_READS {
            if self.bytes.len() >= count {
                return Ok(true);
            }
            if !self.read_more()? {
                return Ok(false);
            }
        }
        Err(Fault::of(Cause::ReadFailed))
    }

    /// Drops the first `count` bytes, which come before a request. The count of reads continues.
    pub fn consume(&mut self, count: usize)
        requires { count ≤ length (buffer self.old) }
        ensures rest { buffer self.new ≡ drop count (buffer self.old) }
        ensures reader { reader_of self.new ≡ reader_of self.old }
        ensures counted { reads_of self.new ≡ reads_of self.old }
    {
        let rest = self.bytes.len() - count;
        self.bytes.as_mut_slice().rotate_left(count);
        self.bytes.truncate(rest);
    }

    /// Drops the first `count` bytes, which are a whole request. The count of reads begins anew.
    pub fn finish_request(&mut self, count: usize)
        requires { count ≤ length (buffer self.old) }
        ensures rest { buffer self.new ≡ drop count (buffer self.old) }
        ensures reader { reader_of self.new ≡ reader_of self.old }
        ensures fresh { reads_of self.new ≡ 0 }
    {
        self.consume(count);
        self.reader.count_anew();
    }
}

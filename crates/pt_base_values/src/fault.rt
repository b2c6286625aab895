ghost use Rattle.std.specs.Prelude.{◌≡◌, IfSome, IsNone};
ghost use Rattle.pt_base_values.specs.Fault.{code_of};
ghost use Rattle.pt_base_values.specs.declared.fault.Cause.{Cause};

use std::alloc::AllocError;
use std::error::Error;
use std::fmt;

/// What went wrong outside the rules.
#[derive(Clone, Copy, Debug, PartialEq, Eq)]
pub enum Cause {
    Memory,
    /// A text is not a date of the calendar in the form `YYYY-MM-DD`.
    NoSuchDate,
    /// A date lies outside 2000 to 2099.
    DateOutOfRange,
    /// A text is not a POSIX time zone rule.
    NoSuchZone,
    /// A file does not exist, or cannot be read.
    NoSuchFile,
    /// A port cannot be had.
    PortRefused,
    /// A file that is to be made exists already.
    FileExists,
    /// The words name no command, or a word is not the number or the day that its place needs.
    WrongWords,
    /// A fixed route has fewer than 2 or more than 200 points.
    RoutePoints,
    /// A fixed route's width lies outside 3,960 to 7,920 feet.
    RouteWidth,
    /// A fixed route has a coordinate outside the plane.
    RouteCoordinate,
    /// A fixed route's first minute comes after its last.
    RouteHours,
    /// A record of a travel table is not CSV, or does not have three fields.
    TravelRecord,
    /// A travel table does not begin with the header `from,to,minutes`.
    TravelHeader,
    /// A travel table names a place that does not exist.
    TravelPlace,
    /// A travel table's minutes are not 0 to 1439.
    TravelMinutes,
    /// A travel table gives a pair of places twice, with different minutes.
    TravelPair,
    /// There are more than 100 places to travel between.
    TravelPlaces,
    /// The tables of a database are not the desk's, or are of another version.
    OtherTables,
    /// The rows of a database are not a sound state.
    UnsoundRows,
    /// The store refused or failed.
    StoreFailed,
    /// A read failed, or too many reads or messages came.
    ReadFailed,
    WriteFailed,
    /// A line that leads a message of a rehearsal is not `@ YYYY-MM-DD M`.
    MomentLine,
    /// A line of a log of refusals is not in form.
    LogLine,
}

impl Cause {
    /// The code that programs print.
    pub fn code(self) -> u16
        ensures { result ≡ code_of self }
    {
        match self {
            Cause::Memory => 0,
            Cause::NoSuchDate => 1,
            Cause::DateOutOfRange => 2,
            Cause::NoSuchZone => 3,
            Cause::NoSuchFile => 5,
            Cause::PortRefused => 6,
            Cause::FileExists => 7,
            Cause::WrongWords => 8,
            Cause::RoutePoints => 10,
            Cause::RouteWidth => 11,
            Cause::RouteCoordinate => 12,
            Cause::RouteHours => 13,
            Cause::TravelRecord => 20,
            Cause::TravelHeader => 21,
            Cause::TravelPlace => 22,
            Cause::TravelMinutes => 23,
            Cause::TravelPair => 24,
            Cause::TravelPlaces => 25,
            Cause::OtherTables => 30,
            Cause::UnsoundRows => 31,
            Cause::StoreFailed => 32,
            Cause::ReadFailed => 46,
            Cause::WriteFailed => 47,
            Cause::MomentLine => 48,
            Cause::LogLine => 50,
        }
    }

    /// The cause with this code, if there is one.
    pub fn of(code: u16) -> Option<Self>
        ensures known { IfSome result (λ cause. code_of cause ≡ code) }
        ensures unknown { IsNone result → (cause : Cause) → ¬ (code_of cause ≡ code) }
    {
        match code {
            0 => Some(Cause::Memory),
            1 => Some(Cause::NoSuchDate),
            2 => Some(Cause::DateOutOfRange),
            3 => Some(Cause::NoSuchZone),
            5 => Some(Cause::NoSuchFile),
            6 => Some(Cause::PortRefused),
            7 => Some(Cause::FileExists),
            8 => Some(Cause::WrongWords),
            10 => Some(Cause::RoutePoints),
            11 => Some(Cause::RouteWidth),
            12 => Some(Cause::RouteCoordinate),
            13 => Some(Cause::RouteHours),
            20 => Some(Cause::TravelRecord),
            21 => Some(Cause::TravelHeader),
            22 => Some(Cause::TravelPlace),
            23 => Some(Cause::TravelMinutes),
            24 => Some(Cause::TravelPair),
            25 => Some(Cause::TravelPlaces),
            30 => Some(Cause::OtherTables),
            31 => Some(Cause::UnsoundRows),
            32 => Some(Cause::StoreFailed),
            46 => Some(Cause::ReadFailed),
            47 => Some(Cause::WriteFailed),
            48 => Some(Cause::MomentLine),
            50 => Some(Cause::LogLine),
            _ => None,
        }
    }

    /// The cause in words, as the help of the program lists them.
    fn words(self) -> &'static str {
        match self {
            Cause::Memory => "out of memory",
            Cause::NoSuchDate => "no such date",
            Cause::DateOutOfRange => "a date outside 2000 to 2099",
            Cause::NoSuchZone => "no such time zone rule",
            Cause::NoSuchFile => "a file that does not exist or cannot be read",
            Cause::PortRefused => "a port that cannot be had",
            Cause::FileExists => "a file to be made that exists already",
            Cause::WrongWords => "words that are no command's",
            Cause::RoutePoints => "the points of a fixed route",
            Cause::RouteWidth => "the width of a fixed route",
            Cause::RouteCoordinate => "a coordinate of a fixed route",
            Cause::RouteHours => "the hours of a fixed route",
            Cause::TravelRecord => "a record of driving times",
            Cause::TravelHeader => "the header of driving times",
            Cause::TravelPlace => "a place of driving times",
            Cause::TravelMinutes => "the minutes of driving times",
            Cause::TravelPair => "a pair of places with two driving times",
            Cause::TravelPlaces => "too many places to drive between",
            Cause::OtherTables => "a database of other tables, or of another version",
            Cause::UnsoundRows => "a database with rows of no sound state",
            Cause::StoreFailed => "the database refused or failed",
            Cause::ReadFailed => "a read failed, or too many came",
            Cause::WriteFailed => "a write failed",
            Cause::MomentLine => "a line of a rehearsal without a moment",
            Cause::LogLine => "a line that is not one of a log of refusals",
        }
    }
}

impl fmt::Display for Cause {
    fn fmt<W: fmt::Write>(&self, f: &mut fmt::Formatter<W>) -> fmt::Result {
        write!(f, "{}", self.words())
    }
}

/// The code of a cause, and the row of the input where it was found, or 0 for none.
#[derive(Clone, Copy, Debug, PartialEq, Eq)]
pub struct Fault {
    pub code: u16,
    pub row: u32,
}

impl Fault {
    ghost use Rattle.pt_base_values.specs.Fault.{fault_at};

    /// The fault with this cause, in no row.
    pub fn of(cause: Cause) -> Self
        ensures code { result.code ≡ code_of cause }
        ensures row { result.row ≡ 0 }
    {
        Fault::at(cause, 0)
    }

    /// The fault with this cause, found in this row.
    pub fn at(cause: Cause, row: u32) -> Self
        ensures { result ≡ fault_at cause row }
    {
        Fault {
            code: cause.code(),
            row,
        }
    }

    /// The cause; `None` if no cause has this code.
    pub fn cause(self) -> Option<Cause>
        ensures known { IfSome result (λ cause. code_of cause ≡ self.code) }
        ensures unknown { IsNone result → (cause : Cause) → ¬ (code_of cause ≡ self.code) }
    {
        Cause::of(self.code)
    }
}

impl fmt::Display for Fault {
    fn fmt<W: fmt::Write>(&self, f: &mut fmt::Formatter<W>) -> fmt::Result {
        write!(f, "fault {} row {}", self.code, self.row)
    }
}

impl Error for Fault {}

impl From<AllocError> for Fault {
    ghost use Rattle.pt_base_values.specs.Fault.{fault as fault_of};
    ghost use Rattle.pt_base_values.specs.declared.fault.Cause.TheVariants.{Memory};

    ghost from_gives = { λ error fault. fault ≡ fault_of Memory };

    fn from(_error: AllocError) -> Self {
        Fault::of(Cause::Memory)
    }
}

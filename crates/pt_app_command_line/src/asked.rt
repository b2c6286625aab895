ghost use Rattle.std.specs.Prelude.{◌≡◌, ℕ, IfSome, IsNone, Option, codes, option_map};
ghost use Rattle.clap.specs.Words.{first_of, found_of, rows_of, subcommand_rows_of};
ghost use Rattle.pt_base_values.specs.declared.trip.Wish.{Wish};
ghost use Rattle.pt_app_command_line.specs.Line.{Asks, AsksOf, HasDay, HasNumber, HasWish, HasWordThat, IsByWord};
ghost use Rattle.pt_app_command_line.specs.Line.{IsMinuteWord, IsRecordWord};
ghost use Rattle.pt_app_command_line.specs.declared.asked.Line.{Line};

use clap::ArgMatches;
use pt_base_values::{
    Day, Id, LAST_MINUTE, Minute, PlaceId, RiderId, VehicleId, Wish, day_from, number_from,
};

/// The last port.
const LAST_PORT: u32 = 65_535;

/// The most connections that one command serves.
const MOST_CONNECTIONS: u32 = 1_000_000;

/// The most companions of a wish.
const MOST_COMPANIONS: u32 = 255;

/// A task for the desk in a file.
#[derive(Clone, Copy)]
pub enum Task<'a> {
    /// Sends the driving times of a CSV file, which hold from a day on, under this number of the caller.
    Travel {
        number: u32,
        day: Day,
        csv: &'a str,
    },
    /// Prints the manifest of a vehicle on a day.
    Manifest {
        vehicle: VehicleId,
        day: Day,
    },
    /// Prints the trips of a day.
    Trips {
        day: Day,
    },
    /// Prints the log of a refusal, which shows that no vehicle can take this wish of the rider.
    Explain {
        rider: RiderId,
        wish: Wish,
    },
    /// Checks the log in a file.
    Audit {
        log: &'a str,
        rider: RiderId,
        wish: Wish,
    },
}

/// A task for the program.
#[derive(Clone, Copy)]
pub enum Line<'a> {
    /// Answers requests from standard input, on a desk in memory whose admin has the key.
    Rehearse {
        key: &'a str,
    },
    /// Makes a database whose admin has the key.
    Init {
        file: &'a str,
        key: &'a str,
    },
    /// Migrates a database of an earlier version to this version.
    Migrate {
        file: &'a str,
    },
    /// Serves this number of connections on a port, in a time zone.
    Serve {
        file: &'a str,
        zone: &'a str,
        port: u16,
        count: u32,
    },
    /// Sends the driving times of a CSV file, which hold from a day on, under this number of the caller.
    Travel {
        file: &'a str,
        zone: &'a str,
        key: &'a str,
        number: u32,
        day: Day,
        csv: &'a str,
    },
    /// Prints the manifest of a vehicle on a day.
    Manifest {
        file: &'a str,
        zone: &'a str,
        key: &'a str,
        vehicle: VehicleId,
        day: Day,
    },
    /// Prints the trips of a day.
    Trips {
        file: &'a str,
        zone: &'a str,
        key: &'a str,
        day: Day,
    },
    /// Prints the log of a refusal, which shows that no vehicle can take this wish of the rider.
    Explain {
        file: &'a str,
        zone: &'a str,
        key: &'a str,
        rider: RiderId,
        day: Day,
        wish: Minute,
        from: PlaceId,
        to: PlaceId,
        by: Option<Minute>,
        attendant: bool,
        companions: u8,
    },
    /// Checks the log in a file.
    Audit {
        log: &'a str,
        file: &'a str,
        zone: &'a str,
        key: &'a str,
        rider: RiderId,
        day: Day,
        wish: Minute,
        from: PlaceId,
        to: PlaceId,
        by: Option<Minute>,
        attendant: bool,
        companions: u8,
    },
}

impl<'a> Line<'a> {
    ghost use Rattle.pt_app_command_line.specs.Line.{task_of};

    /// The task for the desk in a file. The other commands have none.
    pub fn task(&self) -> Option<Task<'a>>
        ensures { result ≡ task_of self.now }
    {
        match *self {
            Line::Travel {
                number,
                day,
                csv,
                ..
            } => Some(Task::Travel { number, day, csv }),
            Line::Manifest { vehicle, day, .. } => Some(Task::Manifest { vehicle, day }),
            Line::Trips { day, .. } => Some(Task::Trips { day }),
            Line::Explain {
                rider,
                day,
                wish,
                from,
                to,
                by,
                attendant,
                companions,
                ..
            } => {
                let wish = Wish {
                    day,
                    pickup: wish,
                    from,
                    to,
                    by,
                    attendant,
                    companions,
                };
                Some(Task::Explain { rider, wish })
            }
            Line::Audit {
                log,
                rider,
                day,
                wish,
                from,
                to,
                by,
                attendant,
                companions,
                ..
            } => {
                let wish = Wish {
                    day,
                    pickup: wish,
                    from,
                    to,
                    by,
                    attendant,
                    companions,
                };
                Some(Task::Audit { log, rider, wish })
            }
            Line::Rehearse { .. } | Line::Init { .. } | Line::Migrate { .. } | Line::Serve { .. } =>
                None,
        }
    }
}

/// The word at a place of a command.
fn word_at<'a>(words: &ArgMatches<'a>, place: &str) -> Option<&'a str>
    ensures { option_map (λ word. word.now) result ≡ first_of place.now (rows_of (found_of words.now)) }
{
    words.get_str(place)
}

/// The number of this range at a place of a command.
fn number_at(words: &ArgMatches<'_>, place: &str, least: u32, most: u32) -> Option<u32>
    ensures number { IfSome result (HasNumber (rows_of (found_of words.now)) place.now least most) }
    ensures none { IsNone result → (number : ℕ)
        → ¬ (HasNumber (rows_of (found_of words.now)) place.now least most number) }
{
    let word = word_at(words, place)?;
    let number = number_from(word.as_bytes(), 10, u64::from(most))? as u32;
    if number < least {
        return None;
    }
    Some(number)
}

/// The day at a place of a command.
fn day_at(words: &ArgMatches<'_>, place: &str) -> Option<Day>
    ensures day { IfSome result (HasDay (rows_of (found_of words.now)) place.now) }
    ensures none { IsNone result → (day : ℕ) → ¬ (HasDay (rows_of (found_of words.now)) place.now day) }
{
    day_from(word_at(words, place)?)
}

/// The number of a record at a place of a command.
fn id_at<Kind>(words: &ArgMatches<'_>, place: &str) -> Option<Id<Kind>>
    ensures id { IfSome result (λ id.
        HasWordThat (rows_of (found_of words.now)) place.now (λ word. IsRecordWord word id)) }
    ensures none { IsNone result → (id : ℕ)
        → ¬ (HasWordThat (rows_of (found_of words.now)) place.now (λ word. IsRecordWord word id)) }
{
    Id::of(number_at(words, place, 1, u32::MAX)?)
}

/// The minute of the day at a place of a command.
fn minute_at(words: &ArgMatches<'_>, place: &str) -> Option<Minute>
    ensures minute { IfSome result (λ minute.
        HasWordThat (rows_of (found_of words.now)) place.now (λ word. IsMinuteWord word minute)) }
    ensures none { IsNone result → (minute : ℕ)
        → ¬ (HasWordThat (rows_of (found_of words.now)) place.now (λ word. IsMinuteWord word minute)) }
{
    Minute::of(number_at(words, place, 0, LAST_MINUTE)?)
}

/// The minute by which the rider must be there, if there is one; the word `none` means that there is none.
fn by_at(words: &ArgMatches<'_>) -> Option<Option<Minute>>
    ensures by { IfSome result (λ by.
        HasWordThat (rows_of (found_of words.now)) (codes "BY") (λ word. IsByWord word by)) }
    ensures none { IsNone result → (by : Option ℕ)
        → ¬ (HasWordThat (rows_of (found_of words.now)) (codes "BY") (λ word. IsByWord word by)) }
{
    match word_at(words, "BY")? {
        "none" => Some(None),
        _ => Some(Some(minute_at(words, "BY")?)),
    }
}

/// The wish at the places of a command.
fn wish_at(words: &ArgMatches<'_>) -> Option<Wish>
    ensures wish { IfSome result (HasWish (rows_of (found_of words.now))) }
    ensures none { IsNone result → (wish : Wish) → ¬ (HasWish (rows_of (found_of words.now)) wish) }
{
    Some(Wish {
        day: day_at(words, "DAY")?,
        pickup: minute_at(words, "WISH")?,
        from: id_at(words, "FROM")?,
        to: id_at(words, "TO")?,
        by: by_at(words)?,
        attendant: number_at(words, "ATTENDANT", 0, 1)? == 1,
        companions: number_at(words, "COMPANIONS", 0, MOST_COMPANIONS)? as u8,
    })
}

/// The task of `rehearse` with these words.
fn rehearse_line<'a>(words: &ArgMatches<'a>) -> Option<Line<'a>>
    ensures line { IfSome result (Asks (codes "rehearse") (rows_of (found_of words.now))) }
    ensures none { IsNone result → (asked : Line)
        → ¬ (Asks (codes "rehearse") (rows_of (found_of words.now)) asked) }
{
    let key = word_at(words, "KEY")?;
    Some(Line::Rehearse { key })
}

/// The task of `init` with these words.
fn init_line<'a>(words: &ArgMatches<'a>) -> Option<Line<'a>>
    ensures line { IfSome result (Asks (codes "init") (rows_of (found_of words.now))) }
    ensures none { IsNone result → (asked : Line)
        → ¬ (Asks (codes "init") (rows_of (found_of words.now)) asked) }
{
    let file = word_at(words, "FILE")?;
    let key = word_at(words, "KEY")?;
    Some(Line::Init { file, key })
}

/// The task of `migrate` with these words.
fn migrate_line<'a>(words: &ArgMatches<'a>) -> Option<Line<'a>>
    ensures line { IfSome result (Asks (codes "migrate") (rows_of (found_of words.now))) }
    ensures none { IsNone result → (asked : Line)
        → ¬ (Asks (codes "migrate") (rows_of (found_of words.now)) asked) }
{
    let file = word_at(words, "FILE")?;
    Some(Line::Migrate { file })
}

/// The task of `serve` with these words.
fn serve_line<'a>(words: &ArgMatches<'a>) -> Option<Line<'a>>
    ensures line { IfSome result (Asks (codes "serve") (rows_of (found_of words.now))) }
    ensures none { IsNone result → (asked : Line)
        → ¬ (Asks (codes "serve") (rows_of (found_of words.now)) asked) }
{
    Some(Line::Serve {
        file: word_at(words, "FILE")?,
        zone: word_at(words, "ZONE")?,
        port: number_at(words, "PORT", 1, LAST_PORT)? as u16,
        count: number_at(words, "COUNT", 1, MOST_CONNECTIONS)?,
    })
}

/// The task of `travel` with these words.
fn travel_line<'a>(words: &ArgMatches<'a>) -> Option<Line<'a>>
    ensures line { IfSome result (Asks (codes "travel") (rows_of (found_of words.now))) }
    ensures none { IsNone result → (asked : Line)
        → ¬ (Asks (codes "travel") (rows_of (found_of words.now)) asked) }
{
    Some(Line::Travel {
        file: word_at(words, "FILE")?,
        zone: word_at(words, "ZONE")?,
        key: word_at(words, "KEY")?,
        number: number_at(words, "NUMBER", 0, u32::MAX)?,
        day: day_at(words, "DAY")?,
        csv: word_at(words, "CSV")?,
    })
}

/// The task of `manifest` with these words.
fn manifest_line<'a>(words: &ArgMatches<'a>) -> Option<Line<'a>>
    ensures line { IfSome result (Asks (codes "manifest") (rows_of (found_of words.now))) }
    ensures none { IsNone result → (asked : Line)
        → ¬ (Asks (codes "manifest") (rows_of (found_of words.now)) asked) }
{
    Some(Line::Manifest {
        file: word_at(words, "FILE")?,
        zone: word_at(words, "ZONE")?,
        key: word_at(words, "KEY")?,
        vehicle: VehicleId::of(number_at(words, "VEHICLE", 1, u32::MAX)?)?,
        day: day_at(words, "DAY")?,
    })
}

/// The task of `trips` with these words.
fn trips_line<'a>(words: &ArgMatches<'a>) -> Option<Line<'a>>
    ensures line { IfSome result (Asks (codes "trips") (rows_of (found_of words.now))) }
    ensures none { IsNone result → (asked : Line)
        → ¬ (Asks (codes "trips") (rows_of (found_of words.now)) asked) }
{
    Some(Line::Trips {
        file: word_at(words, "FILE")?,
        zone: word_at(words, "ZONE")?,
        key: word_at(words, "KEY")?,
        day: day_at(words, "DAY")?,
    })
}

/// The task of `explain` with these words.
fn explain_line<'a>(words: &ArgMatches<'a>) -> Option<Line<'a>>
    ensures line { IfSome result (Asks (codes "explain") (rows_of (found_of words.now))) }
    ensures none { IsNone result → (asked : Line)
        → ¬ (Asks (codes "explain") (rows_of (found_of words.now)) asked) }
{
    let file = word_at(words, "FILE")?;
    let zone = word_at(words, "ZONE")?;
    let key = word_at(words, "KEY")?;
    let rider = id_at(words, "RIDER")?;
    let wish = wish_at(words)?;
    Some(Line::Explain {
        file,
        zone,
        key,
        rider,
        day: wish.day,
        wish: wish.pickup,
        from: wish.from,
        to: wish.to,
        by: wish.by,
        attendant: wish.attendant,
        companions: wish.companions,
    })
}

/// The task of `audit` with these words.
fn audit_line<'a>(words: &ArgMatches<'a>) -> Option<Line<'a>>
    ensures line { IfSome result (Asks (codes "audit") (rows_of (found_of words.now))) }
    ensures none { IsNone result → (asked : Line)
        → ¬ (Asks (codes "audit") (rows_of (found_of words.now)) asked) }
{
    let file = word_at(words, "FILE")?;
    let zone = word_at(words, "ZONE")?;
    let key = word_at(words, "KEY")?;
    let log = word_at(words, "LOG")?;
    let rider = id_at(words, "RIDER")?;
    let wish = wish_at(words)?;
    Some(Line::Audit {
        log,
        file,
        zone,
        key,
        rider,
        day: wish.day,
        wish: wish.pickup,
        from: wish.from,
        to: wish.to,
        by: wish.by,
        attendant: wish.attendant,
        companions: wish.companions,
    })
}

/// The task of the command of this name with these words.
fn line_of<'a>(name: &str, words: &ArgMatches<'a>) -> Option<Line<'a>>
    ensures line { IfSome result (Asks name.now (rows_of (found_of words.now))) }
    ensures none { IsNone result → (asked : Line) → ¬ (Asks name.now (rows_of (found_of words.now)) asked) }
{
    match name {
        "rehearse" => rehearse_line(words),
        "init" => init_line(words),
        "migrate" => migrate_line(words),
        "serve" => serve_line(words),
        "travel" => travel_line(words),
        "manifest" => manifest_line(words),
        "trips" => trips_line(words),
        "explain" => explain_line(words),
        "audit" => audit_line(words),
        _ => None,
    }
}

/// The task of the command that was found.
pub(crate) fn found_line<'a>(matches: &ArgMatches<'a>) -> Option<Line<'a>>
    ensures line { IfSome result (AsksOf (subcommand_rows_of matches.now)) }
    ensures none { IsNone result → (asked : Line) → ¬ (AsksOf (subcommand_rows_of matches.now) asked) }
{
    let (name, words) = matches.subcommand()?;
    line_of(name, words)
}

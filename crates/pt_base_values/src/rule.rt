ghost use Rattle.std.specs.Prelude.{◌≡◌};
ghost use Rattle.pt_base_values.specs.Rule.{name_of};

/// A rule by which the desk denies a request.
#[derive(Clone, Copy, PartialEq, Eq)]
pub enum Rule {
    /// No caller has this key.
    Key,
    /// The number is not above the last accepted one of this caller.
    Number,
    /// The caller may not make this request.
    Caller,
    /// A record that the request names does not exist.
    Unknown,
    /// The trip can no longer be changed in this way.
    Over,
    /// The trip's day has not come yet.
    Early,
    /// A record that the request makes exists already.
    Exists,
    /// Trips that are not cancelled depend on what the request would replace.
    Booked,
    /// A table is at its limit.
    Full,
    /// Case files are for residents.
    Residents,
    /// An application and its decision come in turn; the presumption of eligibility is in the same section.
    Application,
    /// A grant has a last day, which has not passed.
    LastDay,
    /// An appeal, its hearing and its decision.
    Appeal,
    /// A pattern of missed trips, its notice and hearing, and a suspension.
    Suspension,
    /// A resident has no standing on the trip's day.
    Standing,
    /// A visitor has used the days of the period.
    VisitorDays,
    /// The trip meets none of the grant's conditions.
    Conditions,
    /// Who may come along.
    Party,
    /// The days on which a trip may be booked.
    BookingDays,
    /// An end of the trip lies in no corridor.
    Area,
    /// No route runs at an end of the trip at that day and minute.
    Hours,
    /// No vehicle's route has room for the trip.
    NoVehicle,
}

impl Rule {
    /// The name that replies and records give: the desk's own, or the section of 49 CFR Part 37.
    pub fn name(self) -> &'static str
        ensures { result.now ≡ name_of self }
    {
        match self {
            Rule::Key => "desk.key",
            Rule::Number => "desk.number",
            Rule::Caller => "desk.caller",
            Rule::Unknown => "desk.unknown",
            Rule::Over => "desk.over",
            Rule::Early => "desk.early",
            Rule::Exists => "desk.exists",
            Rule::Booked => "desk.booked",
            Rule::Full => "desk.full",
            Rule::Residents => "37.127",
            Rule::Application => "37.125(c)",
            Rule::LastDay => "37.125(e)",
            Rule::Appeal => "37.125(g)",
            Rule::Suspension => "37.125(h)",
            Rule::Standing => "37.125",
            Rule::VisitorDays => "37.127(e)",
            Rule::Conditions => "37.123(b)",
            Rule::Party => "37.123(f)",
            Rule::BookingDays => "37.131(b)",
            Rule::Area => "37.131(a)",
            Rule::Hours => "37.131(e)",
            Rule::NoVehicle => "no vehicle",
        }
    }
}

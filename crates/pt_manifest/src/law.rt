ghost use Rattle.pt_manifest.specs.Days.{DayTextIsDate};

/// A law: the text of each day is its date in the Gregorian calendar.
pub fn day_text_is_the_date()
    ensures { DayTextIsDate }
{}

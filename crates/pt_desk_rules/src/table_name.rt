ghost use Rattle.std.specs.Prelude.{◌≡◌, ◌≤◌, ◌↔◌, IsSome, IfSome};

/// A table of the desk's database, in the order of the tables' numbers.
///
/// A condition over several tables belongs to the last of them.
#[derive(Clone, Copy)]
pub enum TableName {
    /// The policy and the number of the last trip: every value of them is sound.
    Desk,
    Callers,
    Kept,
    Places,
    Fixed,
    Vehicles,
    Riders,
    Entries,
    Trips,
    Stops,
    Travel,
    /// Which riders come in a wheelchair: every value is sound.
    RiderChairs,
    /// The vehicles' wheelchair places: every value is sound.
    VehicleChairs,
    TripChairs,
}

impl TableName {
    ghost use Rattle.pt_desk_rules.specs.TableNames.{number_of, table_count};

    /// Its number, counted from 1.
    pub fn number(self) -> u32
        ensures value { result ≡ number_of self }
        ensures in_range { (1 ≤ result) × (result ≤ table_count) }
    {
        match self {
            TableName::Desk => 1,
            TableName::Callers => 2,
            TableName::Kept => 3,
            TableName::Places => 4,
            TableName::Fixed => 5,
            TableName::Vehicles => 6,
            TableName::Riders => 7,
            TableName::Entries => 8,
            TableName::Trips => 9,
            TableName::Stops => 10,
            TableName::Travel => 11,
            TableName::RiderChairs => 12,
            TableName::VehicleChairs => 13,
            TableName::TripChairs => 14,
        }
    }

    /// The table with this number.
    pub fn with_number(number: u32) -> Option<Self>
        ensures in_range { IsSome result ↔ ((1 ≤ number) × (number ≤ table_count)) }
        ensures value { IfSome result (λ table. number_of table ≡ number) }
    {
        match number {
            1 => Some(TableName::Desk),
            2 => Some(TableName::Callers),
            3 => Some(TableName::Kept),
            4 => Some(TableName::Places),
            5 => Some(TableName::Fixed),
            6 => Some(TableName::Vehicles),
            7 => Some(TableName::Riders),
            8 => Some(TableName::Entries),
            9 => Some(TableName::Trips),
            10 => Some(TableName::Stops),
            11 => Some(TableName::Travel),
            12 => Some(TableName::RiderChairs),
            13 => Some(TableName::VehicleChairs),
            14 => Some(TableName::TripChairs),
            _ => None,
        }
    }
}

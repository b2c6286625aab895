use crate::RiderId;

/// How a rider may use the service.
#[derive(Clone, Copy, PartialEq, Eq)]
pub enum Residence {
    /// Lives in the agency's area, and has a case file.
    Resident,
    /// Comes from elsewhere, and may ride on a limited number of days.
    Visitor,
}

/// A rider's record.
#[derive(Clone, Copy)]
pub struct Rider {
    pub id: RiderId,
    pub kind: Residence,
    /// Whether the record names an attendant.
    pub attendant: bool,
    /// Whether the rider rides in a wheelchair.
    pub wheelchair: bool,
}

use pt_base_values::VehicleId;
use pt_feasible::Schedule;

/// A place for a trip: in which vehicle's route, and where in it.
#[derive(Clone, Drop)]
pub struct Chosen {
    pub vehicle: VehicleId,
    /// After how many of the route's stops the pickup comes.
    pub i: usize,
    /// After how many of the route's old stops the drop comes.
    pub j: usize,
    /// The least service times of the route with the trip put in.
    pub schedule: Schedule,
    /// The driving minutes that the trip adds to the route.
    pub added: u32,
}

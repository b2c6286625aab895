use crate::bounds::Bounds;
use crate::window::ServiceWindow;
use crate::{Asked, Duty};

/// The search of one vehicle's route for a drop, once the place of the pickup is given.
#[derive(Clone, Copy)]
pub(crate) struct DropSearch<'a> {
    pub duty: Duty<'a>,
    pub asked: &'a Asked,
    /// Bounds of all service times that fit the route.
    pub bounds: &'a Bounds,
    /// When the drop can begin.
    pub window: ServiceWindow,
    /// After how many of the route's stops the pickup comes.
    pub i: usize,
}

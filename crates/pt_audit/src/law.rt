ghost use Rattle.pt_audit.specs.RightLog.{RightLogRefuses};

/// A law: whoever made a right log, the trip has no place in any of the routes.
pub fn right_log_shows_that_nothing_is_possible()
    ensures { RightLogRefuses }
{}

ghost use Rattle.pt_insertion_log.specs.Refusals.{RefusalsHaveLogs};

/// A law: where a trip has no place in any of the routes, there is a right log that says so.
pub fn refusals_have_logs()
    ensures { RefusalsHaveLogs }
{}

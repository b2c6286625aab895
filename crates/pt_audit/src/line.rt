/// A log of refusals: its lines between `AUDIT 1` and `DONE`.
#[derive(Drop)]
pub struct Log {
    pub lines: Vec<Line>,
}

/// A line of a log.
#[derive(Clone, Copy, PartialEq, Eq)]
pub enum Line {
    /// `NODIRECT`: there is no way from the origin to the goal.
    NoDirect,
    /// `CASE v i j`: the vehicle, after how many old stops the pickup comes, and after how many the drop.
    Case(u32, u32, u32),
    /// A line that raises a lower bound.
    Raise(Raise),
    /// The end of a case.
    End(End),
}

/// A new lower bound, in minutes of the day, of the service time at a visit; 0 is leaving the depot.
#[derive(Clone, Copy, PartialEq, Eq)]
pub enum Raise {
    /// `F k n`: visit `k` does not begin before minute `n`, by its window.
    Window(u32, u32),
    /// `A k n`: the vehicle does not arrive at visit `k` before minute `n`.
    Drive(u32, u32),
    /// `P k n`: the pickup at visit `k` does not begin before minute `n`, or the ride would be too long.
    Ride(u32, u32),
    /// `T 0 n`: the vehicle does not leave its depot before minute `n`, or its route would take too long.
    Duration(u32),
}

/// Why a case is not possible.
#[derive(Clone, Copy, PartialEq, Eq)]
pub enum End {
    /// `W k`: visit `k` is after its window.
    Late(u32),
    /// `L k`: after visit `k` more are aboard than the vehicle carries.
    Overloaded(u32),
    /// `M k`: there is no way from visit `k` to the next.
    NoWay(u32),
    /// `S`: the route has too many stops.
    TooLong,
}

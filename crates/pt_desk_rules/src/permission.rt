ghost use Rattle.std.specs.Prelude.{◌≡◌};
ghost use Rattle.pt_desk_rules.specs.Permission.{is_admin, is_clerk, is_counter, is_dispatcher, is_examiner};
ghost use Rattle.pt_desk_rules.specs.Permission.{is_officer, is_own};
ghost use Rattle.pt_desk_rules.specs.Permission.{may_alter, may_appeal, may_book, may_end, may_enter, may_run};
ghost use Rattle.pt_desk_rules.specs.Permission.{may_see_standing};

use pt_base_values::{Rider, RiderId, Trip, VehicleId};
use pt_desk_requests::Role;
use pt_rights_files::Entry;

/// Whether the role is the admin's.
pub(crate) fn is_admin(role: Role) -> bool
    ensures { result ≡ is_admin role }
{
    matches!(role, Role::Admin)
}

/// Whether the role is a clerk's.
pub(crate) fn is_clerk(role: Role) -> bool
    ensures { result ≡ is_clerk role }
{
    matches!(role, Role::Clerk)
}

/// Whether the role is a dispatcher's.
pub fn is_dispatcher(role: Role) -> bool
    ensures value { result ≡ is_dispatcher role }
{
    matches!(role, Role::Dispatcher)
}

/// Whether the role is a clerk's or a dispatcher's.
fn is_counter(role: Role) -> bool
    ensures { result ≡ is_counter role }
{
    matches!(role, Role::Clerk | Role::Dispatcher)
}

/// Whether the role is an examiner's.
fn is_examiner(role: Role) -> bool
    ensures { result ≡ is_examiner role }
{
    matches!(role, Role::Examiner)
}

/// Whether the role is an officer's.
fn is_officer(role: Role) -> bool
    ensures { result ≡ is_officer role }
{
    matches!(role, Role::Officer)
}

/// Whether the rider is the caller's own, and has this record.
fn is_own(own: RiderId, rider: RiderId, found: &Option<Rider>) -> bool
    ensures { result ≡ is_own own rider found.now }
{
    own == rider && found.is_some()
}

/// Whether the caller may enter the rider's appeal.
fn may_appeal(role: Role, rider: RiderId, found: &Option<Rider>) -> bool
    ensures { result ≡ may_appeal rider found.now role }
{
    match role {
        Role::Rider(own) => is_own(own, rider, found),
        Role::Clerk => true,
        Role::Examiner | Role::Officer | Role::Dispatcher | Role::Driver(_) | Role::Admin => false,
    }
}

/// Whether the caller may enter such an entry in the rider's case file.
pub(crate) fn may_enter(role: Role, rider: RiderId, found: &Option<Rider>, entry: &Entry) -> bool
    ensures { result ≡ may_enter entry.now rider found.now role }
{
    match entry {
        Entry::Appeal { .. } => may_appeal(role, rider, found),
        Entry::Complete | Entry::Notice(_) => is_clerk(role),
        Entry::Grant(_) | Entry::Refuse(_) => is_examiner(role),
        Entry::Heard
        | Entry::AppealGranted(_)
        | Entry::AppealDenied(_)
        | Entry::Overturn
        | Entry::NoticeHeard
        | Entry::Suspend { .. } => is_officer(role),
    }
}

/// Whether the caller may see the rider's standing.
pub fn may_see_standing(role: Role, rider: RiderId, found: &Option<Rider>) -> bool
    ensures value { result ≡ may_see_standing rider found.now role }
{
    match role {
        Role::Rider(own) => is_own(own, rider, found),
        Role::Clerk | Role::Examiner | Role::Officer => true,
        Role::Dispatcher | Role::Driver(_) | Role::Admin => false,
    }
}

/// Whether the caller may book for the rider, and see the rider's trips.
pub fn may_book(role: Role, rider: RiderId, found: &Option<Rider>) -> bool
    ensures value { result ≡ may_book rider found.now role }
{
    match role {
        Role::Rider(own) => is_own(own, rider, found),
        Role::Clerk | Role::Dispatcher => true,
        Role::Examiner | Role::Officer | Role::Driver(_) | Role::Admin => false,
    }
}

/// Whether the caller may change or cancel the trip, whose rider's record is given. A rider may do so only to a trip
/// that exists.
pub(crate) fn may_alter(role: Role, trip: &Option<Trip>, found: &Option<Rider>) -> bool
    ensures { result ≡ may_alter trip.now found.now role }
{
    match trip {
        Some(there) => may_book(role, there.rider, found),
        None => is_counter(role),
    }
}

/// Whether the caller is the vehicle's driver or a dispatcher.
pub fn may_run(role: Role, vehicle: VehicleId) -> bool
    ensures value { result ≡ may_run vehicle role }
{
    match role {
        Role::Driver(own) => own == vehicle,
        Role::Dispatcher => true,
        Role::Rider(_) | Role::Clerk | Role::Examiner | Role::Officer | Role::Admin => false,
    }
}

/// Whether the caller may report how the trip ended. A driver may do so only for a trip that exists.
pub(crate) fn may_end(role: Role, trip: &Option<Trip>) -> bool
    ensures { result ≡ may_end trip.now role }
{
    match trip {
        Some(there) => may_run(role, there.vehicle),
        None => is_dispatcher(role),
    }
}

ghost use Rattle.std.specs.Prelude.{◌≡◌, [], map, slice_get, IsUtf8, IfOk};
ghost use Rattle.std.specs.Option.{option_copied};
ghost use Rattle.pt_http_request.specs.Targets.{desk_routes, with_routes, AreTexts, target_from, target_in, path_of};

use crate::numbers::{id_from, position_from};
use matchit::{InsertError, ParamsIter, Router};
use pt_base_values::{RiderId, TripId, day_from};
use pt_desk_requests::Read;
use std::alloc::Global;
use std::str;

/// A route of the desk.
#[derive(Clone, Copy)]
pub enum Path {
    Callers,
    Policy,
    Places,
    Routes,
    Riders,
    Vehicles,
    Entries,
    Standing,
    RiderTrips,
    Trips,
    Change,
    Cancel,
    Outcome,
    Letter,
    Manifest,
    DaySheet,
    Export,
}

/// The target of a request's path.
#[derive(Clone, Copy)]
pub enum Target {
    /// A read; the path gives all of it.
    Read(Read),
    /// A write; the body gives the rest.
    Write(WriteTarget),
}

/// The target of a write.
#[derive(Clone, Copy)]
pub enum WriteTarget {
    /// The callers of the desk.
    Callers,
    /// The agency's policy.
    Policy,
    /// The places of the service area.
    Places,
    /// The agency's fixed routes.
    Routes,
    /// The records of riders.
    Riders,
    /// The agency's vehicles.
    Vehicles,
    /// A rider's case file.
    Entries(RiderId),
    /// The trips of riders.
    Trips,
    /// A booked trip, with a new wish of its rider.
    Change(TripId),
    /// A booked trip that its rider cancels.
    Cancel(TripId),
    /// A booked trip that has ended.
    Outcome(TripId),
}

/// The paths of the desk, each with its route. Add new ones at the end.
const PATHS: [(&str, Path); 17] = [
    ("/callers", Path::Callers),
    ("/policy", Path::Policy),
    ("/places", Path::Places),
    ("/routes", Path::Routes),
    ("/riders", Path::Riders),
    ("/vehicles", Path::Vehicles),
    ("/riders/{rider}/entries", Path::Entries),
    ("/riders/{rider}/standing/{day}", Path::Standing),
    ("/riders/{rider}/trips", Path::RiderTrips),
    ("/trips", Path::Trips),
    ("/trips/{trip}/change", Path::Change),
    ("/trips/{trip}/cancel", Path::Cancel),
    ("/trips/{trip}/outcome", Path::Outcome),
    ("/riders/{rider}/letters/{entry}", Path::Letter),
    ("/vehicles/{vehicle}/manifest/{day}", Path::Manifest),
    ("/days/{day}/sheet", Path::DaySheet),
    ("/days/{day}/trips.csv", Path::Export),
];

/// A router over these paths, in their order.
fn router_over(alloc: Global, paths: &[(&str, Path)]) -> Result<Router<Path>, InsertError>
    ensures routes { IfOk result (λ router. router ≡ with_routes (map (λ p. (p.0.now, p.1)) paths.now) []) }
{
    let mut router = Router::new(alloc);
    for &(text, path) in paths {
        router.insert(text, path)?;
    }
    Ok(router)
}

/// A router over the paths of the desk.
pub fn desk_router(alloc: Global) -> Result<Router<Path>, InsertError>
    ensures routes { IfOk result (λ router. router ≡ desk_routes) }
{
    router_over(alloc, &PATHS)
}

/// The first two parts of a path that its route's parameters took.
fn first_two<'v>(mut params: ParamsIter<'_, '_, 'v>) -> (Option<&'v str>, Option<&'v str>)
    ensures one { AreTexts params.entry → option_copied result.0 ≡ slice_get (map (λ part. part.1) params.entry) 0 }
    ensures two { AreTexts params.entry → option_copied result.1 ≡ slice_get (map (λ part. part.1) params.entry) 1 }
{
    let Some((_, one)) = params.next() else {
        return (None, None);
    };
    let Some((_, two)) = params.next() else {
        return (Some(one), None);
    };
    (Some(one), Some(two))
}

/// The target of a route with these first two parts.
fn target_from(path: Path, one: Option<&str>, two: Option<&str>) -> Option<Target>
    ensures { result ≡ target_from path (option_copied one.entry) (option_copied two.entry) }
{
    match path {
        Path::Callers => Some(Target::Write(WriteTarget::Callers)),
        Path::Policy => Some(Target::Write(WriteTarget::Policy)),
        Path::Places => Some(Target::Write(WriteTarget::Places)),
        Path::Routes => Some(Target::Write(WriteTarget::Routes)),
        Path::Riders => Some(Target::Write(WriteTarget::Riders)),
        Path::Vehicles => Some(Target::Write(WriteTarget::Vehicles)),
        Path::Entries => Some(Target::Write(WriteTarget::Entries(id_from(one?)?))),
        Path::Standing => {
            let rider = id_from(one?)?;
            let day = day_from(two?)?;
            Some(Target::Read(Read::Standing { rider, day }))
        }
        Path::RiderTrips => Some(Target::Read(Read::Trips(id_from(one?)?))),
        Path::Trips => Some(Target::Write(WriteTarget::Trips)),
        Path::Change => Some(Target::Write(WriteTarget::Change(id_from(one?)?))),
        Path::Cancel => Some(Target::Write(WriteTarget::Cancel(id_from(one?)?))),
        Path::Outcome => Some(Target::Write(WriteTarget::Outcome(id_from(one?)?))),
        Path::Letter => {
            let rider = id_from(one?)?;
            let position = position_from(two?)?;
            Some(Target::Read(Read::Letter { rider, position }))
        }
        Path::Manifest => {
            let vehicle = id_from(one?)?;
            let day = day_from(two?)?;
            Some(Target::Read(Read::Manifest { vehicle, day }))
        }
        Path::DaySheet => Some(Target::Read(Read::DaySheet(day_from(one?)?))),
        Path::Export => Some(Target::Read(Read::Export(day_from(one?)?))),
    }
}

/// The target of a path by these routes.
fn target_of(router: &Router<Path>, path: &str) -> Option<Target>
    ensures { result ≡ target_in router.now path.now }
{
    if !path.is_ascii() {
        return None;
    }
    let Ok(found) = router.at(path) else {
        return None;
    };
    let (one, two) = first_two(found.params.iter());
    target_from(*found.value, one, two)
}

/// The text before the first `?`.
fn path_from(whole: &str) -> &str
    ensures { result.now ≡ path_of whole.now }
{
    match whole.split_once('?') {
        Some((path, _)) => path,
        None => whole,
    }
}

/// The target of a request by these routes. Only the text before the first `?` counts.
pub(crate) fn target_at(router: &Router<Path>, whole: &[u8]) -> Option<Target>
    requires { IsUtf8 whole.now }
    ensures { result ≡ target_in router.now (path_of whole.now) }
{
    match str::from_utf8(whole) {
        Ok(text) => target_of(router, path_from(text)),
        Err(_) => None,
    }
}

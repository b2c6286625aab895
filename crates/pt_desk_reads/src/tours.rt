ghost use Rattle.std.specs.Prelude.{◌≡◌, ℕ, ◌+◌, ◌<◌, ◌≤◌, length, IfOk, Some};
ghost use Rattle.std.specs.List.{AllZip};
ghost use Rattle.pt_base_values.specs.Moment.{Moment};
ghost use Rattle.pt_feasible.specs.Loads.{LoadsFit};
ghost use Rattle.pt_feasible.specs.Route.{stops_of};
ghost use Rattle.pt_feasible.specs.ServiceTimes.{KeepsTimeWindows};
ghost use Rattle.pt_feasible.specs.Visit.{visits};
ghost use Rattle.pt_base_records.specs.Records.{record_at, Each};
ghost use Rattle.pt_desk_scheduling.specs.Routes.{stops_on};
ghost use Rattle.pt_desk_rules.specs.Booking.{rows_of};
ghost use Rattle.pt_desk_requests.specs.declared.request.Read.TheVariants as read;
ghost use Rattle.pt_desk_rules.specs.Deciding.{IsTold};
ghost use Rattle.pt_desk_rules.specs.Fleet as fleet;
ghost use Rattle.pt_desk_rules.specs.Sound.{IsIn};
ghost use Rattle.pt_desk_rules.specs.State.{trip_key};
ghost use Rattle.pt_desk_rules.specs.Tours.{place_of, standing_count, window_of, AreShown, IsTourAt, IsTourOrNone};
ghost use Rattle.pt_desk_rules.specs.Tours.{IsDaySheet, IsManifestOf, IsSheetOf};

use pt_base_records::{Key, Rows};
use pt_base_values::{Day, Load, Minute, PlaceId, Rule, Trip, TripId, Vehicle, VehicleId, Window};
use pt_desk_requests::{Answer, Caller, DaySheet, Tour, TourStop, VehicleSheet};
use pt_desk_rules::{
    DayFacts, ReadFacts, TravelTable, duty_of, has_version, is_dispatcher, may_run, on_duty,
};
use pt_desk_scheduling::route_on;
use pt_feasible::{Route, Schedule, StopKind, Stops, aboard_after, loads_fit, settle};
use std::alloc::{AllocError, Global};

/// The promised window of a pickup; `None` at a drop.
fn window_of(kind: StopKind, trip: &Trip) -> Option<Window>
    ensures { result ≡ window_of kind trip.now }
{
    match kind {
        StopKind::Pickup => Some(Window {
            from: trip.window_from,
            to: trip.window_to,
        }),
        StopKind::Drop => None,
    }
}

/// The place of a trip's stop.
fn place_of(kind: StopKind, trip: &Trip) -> PlaceId
    ensures { result ≡ place_of kind trip.now }
{
    match kind {
        StopKind::Pickup => trip.wish.from,
        StopKind::Drop => trip.wish.to,
    }
}

/// A service time as a minute of the day. It is at most `latest`, the end of its window.
fn minute_of(time: u16, latest: Minute) -> Minute
    requires { time ≤ latest }
    ensures { result ≡ time }
{
    let _last = latest.number();
    Minute::of(u32::from(time)).unwrap()
}

/// The trip of this number.
fn trip_at(trips: &Rows<Trip>, id: TripId) -> &Trip
    requires { IsIn trip_key trips.now id }
    ensures { record_at trip_key id trips.now ≡ Some result.now }
{
    trips.find(&Key::of(id.number())).unwrap()
}

/// The stops of a vehicle's route, at these service times.
fn tour_stops(
    alloc: Global,
    route: &Route,
    trips: &Rows<Trip>,
    vehicle: &Vehicle,
    times: &Schedule,
) -> Result<Vec<TourStop>, AllocError>
    requires trips { Each (λ stop. IsIn trip_key trips.now stop.trip) (stops_of route.now) }
    requires loads { LoadsFit vehicle.now (stops_of route.now) }
    requires one_each { length times.now.items ≡ length (stops_of route.now) + 2 }
    requires windows { KeepsTimeWindows (visits vehicle.now (stops_of route.now)) times.now.items }
    ensures { IfOk result (λ shown. AreShown trips.now (stops_of route.now) times.now.items shown.items) }
{
    let mut shown = Vec::new(alloc);
    let mut aboard = Load::none();
    for k in 0..route.len() {
        let stop = route.stop(k);
        let trip = trip_at(trips, stop.trip);
        aboard = aboard_after(route, k, aboard).unwrap();
        shown.push(TourStop {
            minute: minute_of(times.as_slice()[k + 1], stop.hi),
            window: window_of(stop.kind, trip),
            trip: trip.id,
            rider: trip.rider,
            place: place_of(stop.kind, trip),
            aboard,
        })?;
    }
    Ok(shown)
}

/// The tour of a vehicle over its route, at these service times.
fn tour_at(
    alloc: Global,
    route: &Route,
    trips: &Rows<Trip>,
    vehicle: &Vehicle,
    times: &Schedule,
) -> Result<Tour, AllocError>
    requires some { 0 < length (stops_of route.now) }
    requires trips { Each (λ stop. IsIn trip_key trips.now stop.trip) (stops_of route.now) }
    requires loads { LoadsFit vehicle.now (stops_of route.now) }
    requires one_each { length times.now.items ≡ length (stops_of route.now) + 2 }
    requires windows { KeepsTimeWindows (visits vehicle.now (stops_of route.now)) times.now.items }
    ensures { IfOk result (λ tour. IsTourAt vehicle.now trips.now (stops_of route.now) times.now.items tour) }
{
    let stops = tour_stops(alloc, route, trips, vehicle, times)?;
    Ok(Tour {
        depot: vehicle.depot,
        chairs: vehicle.chairs,
        leaves: minute_of(times.as_slice()[0], vehicle.closes),
        stops,
        returns: minute_of(times.as_slice()[route.len() + 1], vehicle.closes),
    })
}

/// The tour of a vehicle over its route, by the driving times of a table; `None` if it has none.
fn tour_of(
    alloc: Global,
    route: &Route,
    trips: &Rows<Trip>,
    vehicle: &Vehicle,
    table: &TravelTable,
) -> Result<Option<Tour>, AllocError>
    requires trips { Each (λ stop. IsIn trip_key trips.now stop.trip) (stops_of route.now) }
    ensures { IfOk result (λ tour.
        IsTourOrNone table.now.rows vehicle.now trips.now (stops_of route.now) tour) }
{
    if route.len() == 0 || !loads_fit(route, vehicle) {
        return Ok(None);
    }
    match settle(route, table.times(), vehicle) {
        Some(times) => Ok(Some(tour_at(alloc, route, trips, vehicle, &times)?)),
        None => Ok(None),
    }
}

/// The tour of a vehicle on duty on a day; `None` if it has none.
fn tour_on(
    alloc: Global,
    day: Day,
    facts: &DayFacts,
    vehicle: &Vehicle,
) -> Result<Option<Tour>, AllocError>
    ensures { let stops = stops_on day facts.now.trips facts.now.plans vehicle.now.id in IfOk result (λ tour.
        IsTourOrNone (rows_of facts.now.travel) vehicle.now facts.now.trips stops tour) }
{
    let Some(route) = route_on(alloc, day, &facts.trips, &facts.plans, vehicle.id)? else {
        return Ok(None);
    };
    if let Some(table) = &facts.travel {
        return tour_of(alloc, &route, &facts.trips, vehicle, table);
    }
    let table = TravelTable::none(alloc, day)?;
    tour_of(alloc, &route, &facts.trips, vehicle, &table)
}

/// The sheet of a vehicle on duty on a day.
fn sheet_of(
    alloc: Global,
    day: Day,
    facts: &DayFacts,
    vehicle: &Vehicle,
) -> Result<VehicleSheet, AllocError>
    ensures { IfOk result (λ sheet. IsSheetOf day facts.now vehicle.now sheet) }
{
    let tour = tour_on(alloc, day, facts, vehicle)?;
    Ok(VehicleSheet {
        vehicle: vehicle.id,
        tour,
    })
}

/// The sheet of a vehicle on a day, on duty or not.
fn manifest_of(
    alloc: Global,
    id: VehicleId,
    day: Day,
    facts: &ReadFacts,
) -> Result<VehicleSheet, AllocError>
    ensures { IfOk result (λ sheet.
        IsManifestOf id day facts.now.day (fleet.duty_of id day facts.now.vehicles) sheet) }
{
    match duty_of(facts.vehicles.as_slice(), id, day) {
        Some(version) => sheet_of(alloc, day, &facts.day, version),
        None => Ok(VehicleSheet {
            vehicle: id,
            tour: None,
        }),
    }
}

/// The sheet of each of these vehicles on a day.
fn sheets_of(
    alloc: Global,
    day: Day,
    facts: &DayFacts,
    vehicles: &[Vehicle],
) -> Result<Vec<VehicleSheet>, AllocError>
    ensures { IfOk result (λ sheets. AllZip (IsSheetOf day facts.now) vehicles.now sheets.items) }
{
    let mut sheets = Vec::new(alloc);
    for vehicle in vehicles {
        sheets.push(sheet_of(alloc, day, facts, vehicle)?)?;
    }
    Ok(sheets)
}

/// The number of trips that are not cancelled.
fn standing_count(trips: &[Trip]) -> usize
    ensures { result ≡ standing_count trips.now }
{
    let mut count = 0;
    for trip in trips {
        if trip.status.stands() {
            count += 1;
        }
    }
    count
}

/// The sheets of all vehicles on duty on a day.
fn day_sheet_of(alloc: Global, day: Day, facts: &ReadFacts) -> Result<DaySheet, AllocError>
    ensures { IfOk result (λ sheet. IsDaySheet day facts.now.vehicles facts.now.day sheet) }
{
    let vehicles = on_duty(alloc, facts.vehicles.as_slice(), day)?;
    Ok(DaySheet {
        day,
        vehicles: sheets_of(alloc, day, &facts.day, &vehicles)?,
        trips: standing_count(facts.day.trips.as_slice()),
    })
}

/// The answer about a vehicle's manifest on a day.
pub(crate) fn tell_manifest(
    alloc: Global,
    facts: &ReadFacts,
    me: &Caller,
    vehicle: VehicleId,
    day: Day,
) -> Result<Answer, AllocError>
    ensures { IfOk result (λ told. (now : Moment) → IsTold (read.Manifest vehicle day) me.now now facts.now told) }
{
    if !may_run(me.role, vehicle) {
        return Ok(Answer::Denied(Rule::Caller));
    }
    if !has_version(facts.vehicles.as_slice(), vehicle) {
        return Ok(Answer::Denied(Rule::Unknown));
    }
    let sheet = manifest_of(alloc, vehicle, day, facts)?;
    Ok(Answer::Manifest { day, sheet })
}

/// The answer about the day sheet of all vehicles on duty.
pub(crate) fn tell_day_sheet(
    alloc: Global,
    facts: &ReadFacts,
    me: &Caller,
    day: Day,
) -> Result<Answer, AllocError>
    ensures { IfOk result (λ told. (now : Moment) → IsTold (read.DaySheet day) me.now now facts.now told) }
{
    if !is_dispatcher(me.role) {
        return Ok(Answer::Denied(Rule::Caller));
    }
    Ok(Answer::DaySheet(day_sheet_of(alloc, day, facts)?))
}

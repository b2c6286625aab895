//! A plain check of a log: it builds each case's list of stops anew, and uses wide numbers.
use crate::times::Plain;
use pt_audit::{End, Line, Raise, Visit};
use pt_base_values::Vehicle;
use pt_feasible::{MAX_STOPS, Route, Stop, StopKind, Stops};
use pt_insertion_search::{Asked, Duty};
use pt_travel::Times;
use std::alloc::{AllocError, Global};

/// Whether the lines are a right log.
pub fn is_right(
    alloc: Global,
    lines: &[Line],
    duties: &[Duty<'_>],
    asked: &Asked,
) -> Result<bool, AllocError> {
    if let [Line::NoDirect] = lines {
        return Ok(Plain.minutes(asked.origin, asked.goal).is_none());
    }
    let mut at = 0;
    for duty in duties {
        match duty_end(alloc, lines, at, duty, asked)? {
            Some(end) => at = end,
            None => return Ok(false),
        }
    }
    Ok(at == lines.len())
}

/// The end of a vehicle's cases whose first line is at `begin`, if they are right.
fn duty_end(
    alloc: Global,
    lines: &[Line],
    begin: usize,
    duty: &Duty<'_>,
    asked: &Asked,
) -> Result<Option<usize>, AllocError> {
    let mut at = begin;
    let id = duty.vehicle.id.number();
    let last = duty.route.len().min(MAX_STOPS);
    for i in 0..last + 1 {
        for j in i..last + 1 {
            if lines.get(at) != Some(&Line::Case(id, i as u32, j as u32)) {
                return Ok(None);
            }
            let stops = stops_with(alloc, duty.route, asked, i, j)?;
            match case_end(alloc, lines, at.saturating_add(1), duty.vehicle, &stops)? {
                Some(end) => at = end,
                None => return Ok(None),
            }
        }
    }
    Ok(Some(at))
}

/// The route's stops with the trip put in.
pub fn stops_with(
    alloc: Global,
    route: &Route,
    asked: &Asked,
    i: usize,
    j: usize,
) -> Result<Vec<Stop>, AllocError> {
    let mut stops = Vec::new(alloc);
    for k in 0..route.len() {
        stops.push(route.stop(k))?;
    }
    stops.insert(j.min(stops.len()), asked.drop_stop())?;
    stops.insert(i.min(stops.len()), asked.pickup_stop())?;
    Ok(stops)
}

/// Leaving the depot, or coming back.
fn depot_visit(vehicle: &Vehicle) -> Visit {
    Visit {
        place: vehicle.depot,
        lo: vehicle.opens,
        hi: vehicle.closes,
        service: 0,
    }
}

/// Depot, stops, depot.
fn visits_of(alloc: Global, vehicle: &Vehicle, stops: &[Stop]) -> Result<Vec<Visit>, AllocError> {
    let mut visits = Vec::new(alloc);
    visits.push(depot_visit(vehicle))?;
    for stop in stops {
        visits.push(Visit {
            place: stop.place,
            lo: stop.lo,
            hi: stop.hi,
            service: stop.service,
        })?;
    }
    visits.push(depot_visit(vehicle))?;
    Ok(visits)
}

/// A vehicle's route with the trip put in.
#[derive(Clone, Copy)]
struct Tour<'a> {
    pub vehicle: &'a Vehicle,
    pub stops: &'a [Stop],
    pub visits: &'a [Visit],
}

/// The end of the case whose steps begin at `begin`, if it is right.
fn case_end(
    alloc: Global,
    lines: &[Line],
    begin: usize,
    vehicle: &Vehicle,
    stops: &[Stop],
) -> Result<Option<usize>, AllocError> {
    let visits = visits_of(alloc, vehicle, stops)?;
    let mut bounds = vec![in alloc; 0u64; visits.len()]?;
    let tour = Tour {
        vehicle,
        stops,
        visits: &visits,
    };
    Ok(steps_end(lines, begin, tour, &mut bounds))
}

/// The end of the steps that begin at `begin`, if they are right.
fn steps_end(lines: &[Line], begin: usize, tour: Tour<'_>, bounds: &mut Vec<u64>) -> Option<usize> {
    for place in begin..lines.len() {
        match lines[place] {
            Line::Raise(raise) => {
                if !raises(tour, bounds, raise) {
                    return None;
                }
                let (k, minute) = target(raise);
                if let Some(bound) = bounds.get_mut(k) {
                    *bound = (*bound).max(minute);
                }
            }
            Line::End(end) => return ends(tour, bounds, end).then_some(place + 1),
            Line::NoDirect | Line::Case(..) => return None,
        }
    }
    None
}

/// The visit that is raised, and to which minute.
fn target(raise: Raise) -> (usize, u64) {
    match raise {
        Raise::Window(k, minute) | Raise::Drive(k, minute) | Raise::Ride(k, minute) => {
            (k as usize, u64::from(minute))
        }
        Raise::Duration(minute) => (0, u64::from(minute)),
    }
}

fn bound_at(bounds: &[u64], k: usize) -> u64 {
    bounds.get(k).copied().unwrap_or(0)
}

/// Whether a raise is right.
fn raises(tour: Tour<'_>, bounds: &[u64], raise: Raise) -> bool {
    match raise {
        Raise::Window(k, minute) => match tour.visits.get(k as usize) {
            Some(visit) => minute <= visit.lo.number(),
            None => false,
        },
        Raise::Drive(k, minute) => match arrival(tour, bounds, k as usize) {
            Some(arrival) => u64::from(minute) <= arrival,
            None => false,
        },
        Raise::Ride(k, minute) => is_ride(tour.stops, bounds, k as usize, u64::from(minute)),
        Raise::Duration(minute) => {
            let last = bounds.last().copied().unwrap_or(0);
            u64::from(minute).saturating_add(u64::from(tour.vehicle.duration)) <= last
        }
    }
}

/// When the vehicle arrives at a visit from the one before; `None` if there is none before, or no way.
fn arrival(tour: Tour<'_>, bounds: &[u64], k: usize) -> Option<u64> {
    if k == 0 || k >= tour.visits.len() {
        return None;
    }
    let (this, next) = (tour.visits[k - 1], tour.visits[k]);
    let drive = Plain.minutes(this.place, next.place)?;
    let leaves = bound_at(bounds, k - 1).saturating_add(u64::from(this.service));
    Some(leaves.saturating_add(u64::from(drive)))
}

/// Whether visit `k` is a pickup that cannot begin before a minute, by the bound of its drop.
fn is_ride(stops: &[Stop], bounds: &[u64], k: usize, minute: u64) -> bool {
    if k == 0 || k > stops.len() || stops[k - 1].kind != StopKind::Pickup {
        return false;
    }
    let pickup = stops[k - 1];
    let mut latest = None;
    for j in k..stops.len() {
        if stops[j].trip == pickup.trip {
            latest = Some(bound_at(bounds, j.saturating_add(1)));
        }
    }
    let taken = u64::from(pickup.service).saturating_add(u64::from(pickup.ride));
    match latest {
        Some(bound) => minute.saturating_add(taken) <= bound,
        None => false,
    }
}

/// Whether an end is right.
fn ends(tour: Tour<'_>, bounds: &[u64], end: End) -> bool {
    match end {
        End::Late(k) => match tour.visits.get(k as usize) {
            Some(visit) => u64::from(visit.hi.number()) < bound_at(bounds, k as usize),
            None => false,
        },
        End::Overloaded(k) => {
            let (seats, chairs) = aboard(tour.stops, k as usize);
            let too_many = i64::from(tour.vehicle.capacity) < seats
                || i64::from(tour.vehicle.chairs) < chairs;
            k as usize <= tour.stops.len() && too_many
        }
        End::NoWay(k) => {
            let k = k as usize;
            match (tour.visits.get(k), tour.visits.get(k.saturating_add(1))) {
                (Some(this), Some(next)) => Plain.minutes(this.place, next.place).is_none(),
                _ => false,
            }
        }
        End::TooLong => tour.stops.len() > MAX_STOPS,
    }
}

/// The seats and the wheelchair places that are taken after the first `k` stops.
fn aboard(stops: &[Stop], k: usize) -> (i64, i64) {
    let (mut seats, mut chairs) = (0i64, 0i64);
    for stop in stops.iter().take(k) {
        let (more, wheelchairs) = (i64::from(stop.load.seats), i64::from(stop.load.chairs));
        (seats, chairs) = match stop.kind {
            StopKind::Pickup => (
                seats.saturating_add(more),
                chairs.saturating_add(wheelchairs),
            ),
            StopKind::Drop => (
                seats.saturating_sub(more),
                chairs.saturating_sub(wheelchairs),
            ),
        };
    }
    (seats, chairs)
}

//! The ranges of the fields of records, which their types ensure.
//!
//! Definitions see a day, a minute or a record's number as a bare number. Only its type shows that it is in its range.
//! So these functions look at each field, and show no more than that.
ghost use Rattle.std.specs.Prelude.{All};
ghost use Rattle.pt_base_records.specs.Records.{Each};
ghost use Rattle.pt_rights_files.specs.Conditions.{IsCondition};
ghost use Rattle.pt_desk_spelling.specs.Ranges.{IsEntry, IsGrant, IsRole, IsWish};
ghost use Rattle.pt_desk_rules.specs.Parts.{Part, edit_of};
ghost use Rattle.pt_desk_rules.specs.Ranges.{FitsIn, PutsInRange};

use crate::{Change, FiledEntry, Kept, TravelTable};
use pt_base_values::{Place, Rider, Trip, Vehicle, Wish};
use pt_corridor::FixedRoute;
use pt_desk_requests::{Caller, Role};
use pt_desk_scheduling::{Plan, PlannedStop};
use pt_desk_spelling::{days_byte, spell_reply};
use pt_rights_files::{Condition, Entry, Grant};
use pt_travel::Row;

/// A record whose fields have ranges.
trait Fitting {
    ghost Fits: { Self → Type 0 };

    /// Shows that its fields are in their ranges, which their types ensure.
    fn fits(&self)
        ensures fits { Fits self.now };
}

/// Shows that the fields of each record are in their ranges, which their types ensure.
fn all_fit<T: Fitting>(records: &[T])
    ensures fit { Each T.Fits records.now }
{
    for record in records {
        record.fits();
    }
}

fn fits_role(role: Role)
    ensures { IsRole role }
{
    match role {
        Role::Rider(rider) => {
            let _rider = rider.number();
        }
        Role::Driver(vehicle) => {
            let _vehicle = vehicle.number();
        }
        Role::Clerk | Role::Examiner | Role::Officer | Role::Dispatcher | Role::Admin => {}
    }
}

impl Fitting for Caller {
    ghost use Rattle.pt_desk_spelling.specs.Ranges.{IsCaller};

    ghost Fits = { IsCaller };

    fn fits(&self) {
        let _id = self.id.number();
        fits_role(self.role);
        let _copy = self.copy();
    }
}

impl Fitting for Kept {
    ghost use Rattle.pt_desk_rules.specs.Ranges.{FitsKept};

    ghost Fits = { FitsKept };

    fn fits(&self) {
        let _caller = self.caller.number();
        let _number = self.number;
        let _spelling = spell_reply(&self.reply);
    }
}

impl Fitting for Place {
    ghost use Rattle.pt_desk_rules.specs.Ranges.{FitsPlace};

    ghost Fits = { FitsPlace };

    fn fits(&self) {
        let _id = self.id.number();
    }
}

impl Fitting for FixedRoute {
    ghost use Rattle.pt_desk_spelling.specs.Ranges.{IsRoute};

    ghost Fits = { IsRoute };

    fn fits(&self) {
        let _id = self.id().number();
        let _width = self.width();
        let _points = self.points();
        let _days = days_byte(self.days());
        let _first = self.first().number();
        let _last = self.last().number();
    }
}

impl Fitting for Rider {
    ghost use Rattle.pt_desk_rules.specs.Ranges.{FitsRider};

    ghost Fits = { FitsRider };

    fn fits(&self) {
        let _id = self.id.number();
    }
}

/// Shows that a condition's months and feet are in their ranges.
fn fits_condition(condition: Condition)
    ensures { IsCondition condition }
{
    match condition {
        Condition::Months(months) => {
            let _numbers = months.numbers();
        }
        Condition::Farther(feet) => {
            let _number = feet.number();
        }
        Condition::Always | Condition::NoLift => {}
    }
}

fn fit_conditions(conditions: &[Condition])
    ensures { All IsCondition conditions.now }
{
    for condition in conditions {
        fits_condition(*condition);
    }
}

/// Shows that a grant's last day and conditions are in their ranges.
fn fits_grant(grant: &Grant)
    ensures { IsGrant grant.now }
{
    let _number = grant.until.number();
    fit_conditions(grant.conditions.as_slice());
}

fn fits_entry(entry: &Entry)
    ensures { IsEntry entry.now }
{
    match entry {
        Entry::Grant(grant) | Entry::AppealGranted(grant) => fits_grant(grant),
        Entry::Refuse(reasons) | Entry::AppealDenied(reasons) | Entry::Notice(reasons) => {
            let _bytes = reasons.as_bytes();
        }
        Entry::Suspend {
            starts,
            ends,
            reasons,
        } => {
            let _days = (starts.number(), ends.number());
            let _bytes = reasons.as_bytes();
        }
        Entry::Appeal { against } => {
            let _number = against.number();
        }
        Entry::Complete | Entry::Heard | Entry::Overturn | Entry::NoticeHeard => {}
    }
}

impl Fitting for FiledEntry {
    ghost use Rattle.pt_desk_rules.specs.Ranges.{FitsFiled};

    ghost Fits = { FitsFiled };

    fn fits(&self) {
        let _rider = self.rider.number();
        let _position = self.position;
        fits_entry(&self.entered.entry);
        let _day = self.entered.day.number();
        let _author = self.entered.author.number();
    }
}

impl Fitting for Vehicle {
    ghost use Rattle.pt_desk_spelling.specs.Ranges.{IsVehicle};

    ghost Fits = { IsVehicle };

    fn fits(&self) {
        let _id = self.id.number();
        let _from_day = self.from_day.number();
        let _days = days_byte(self.days);
        let _depot = self.depot.number();
        let _closes = self.closes.number();
    }
}

impl Fitting for Row {
    ghost use Rattle.pt_desk_rules.specs.Ranges.{FitsDrive};

    ghost Fits = { FitsDrive };

    fn fits(&self) {
        let (from, to, minutes) = *self;
        let _places = (from.number(), to.number());
        let _minutes = minutes;
    }
}

impl Fitting for TravelTable {
    ghost use Rattle.pt_desk_rules.specs.Ranges.{FitsTravel};

    ghost Fits = { FitsTravel };

    fn fits(&self) {
        let _from_day = self.from_day().number();
        all_fit(self.rows());
    }
}

fn fits_wish(wish: &Wish)
    ensures { IsWish wish.now }
{
    let _day = wish.day.number();
    let _pickup = wish.pickup.number();
    let _places = (wish.from.number(), wish.to.number());
    if let Some(by) = wish.by {
        let _by = by.number();
    }
    let _companions = wish.companions;
}

impl Fitting for Trip {
    ghost use Rattle.pt_desk_rules.specs.Ranges.{FitsTrip};

    ghost Fits = { FitsTrip };

    fn fits(&self) {
        let _id = self.id.number();
        let _rider = self.rider.number();
        fits_wish(&self.wish);
        let _vehicle = self.vehicle.number();
        let _window = (self.window_from.number(), self.window_to.number());
    }
}

impl Fitting for PlannedStop {
    ghost use Rattle.pt_desk_rules.specs.Ranges.{FitsStop};

    ghost Fits = { FitsStop };

    fn fits(&self) {
        let _trip = self.trip.number();
    }
}

impl Fitting for Plan {
    ghost use Rattle.pt_desk_rules.specs.Ranges.{FitsPlan};

    ghost Fits = { FitsPlan };

    fn fits(&self) {
        let _vehicle = self.vehicle.number();
        let _day = self.day.number();
        all_fit(&self.stops);
    }
}

/// Shows that the records that a change puts are in their ranges, which their types ensure.
fn parts_fit(change: &Change)
    ensures { (p : Part) → Each (FitsIn p) (edit_of p change.now).puts }
{
    all_fit(change.callers.puts());
    all_fit(change.kept.puts());
    all_fit(change.places.puts());
    all_fit(change.routes.puts());
    all_fit(change.riders.puts());
    all_fit(change.entries.puts());
    all_fit(change.vehicles.puts());
    all_fit(change.travel.puts());
    all_fit(change.trips.puts());
    all_fit(change.planned.puts());
}

/// Shows that everything that a change puts is in its ranges, which the types of its records ensure.
pub fn puts_in_range(change: &Change)
    ensures { PutsInRange change.now }
{
    parts_fit(change);
    if let Some(last_trip) = change.last_trip {
        let _number = last_trip.number();
    }
}

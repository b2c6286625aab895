//! The tables whose primary key is the rowid.

ghost use Rattle.std.specs.Prelude.{[], ◌∷◌, IsTrue, OnOk};
ghost use Rattle.sqlite.specs.Effect.{IsDatabase};
ghost use Rattle.sqlite.specs.Held.{state};
ghost use Rattle.sqlite.specs.State.{HasCleanDisk};
ghost use Rattle.pt_desk_rules.specs.Ranges.{FitsKept};
ghost use Rattle.pt_desk_rules.specs.State.{kept_key};
ghost use Rattle.pt_tables_rows.specs.Rows.{kept_row};
ghost use Rattle.pt_tables_rows.specs.Schema.{kept_table};
ghost use Rattle.pt_tables_writing.specs.Step.{Writes};
ghost use Rattle.pt_tables_writing.specs.Writes.{Puts};

use crate::stored::Stored;
use columns::{kind_number, optional_number, points_bytes, status_number};
pub use desk::raise_version;
pub(crate) use desk::write_desk;
use pt_base_values::{Place, Rider, Trip};
use pt_corridor::FixedRoute;
use pt_desk_requests::Caller;
use pt_desk_rules::Kept;
use pt_desk_spelling::{days_byte, role_number, spell_reply, subject_of};
use pt_tables_rows::tables::{Callers, FixedRoutes, KeptWrites, Places, Riders, Trips};
use sqlite::{Alter, Error, Transaction, params};

mod columns;
mod desk;

const PUT_CALLER: &str = "INSERT INTO callers (id, role, subject, digest) \
    VALUES (?1, ?2, ?3, ?4) \
    ON CONFLICT (id) DO UPDATE SET role = ?2, subject = ?3, digest = ?4";

const TAKE_CALLER: &str = "DELETE FROM callers WHERE id = ?1";

impl Stored for Callers {
    fn put<S: Alter>(tx: &mut Transaction<'_, S>, caller: &Caller) -> Result<(), Error> {
        tx.execute(
            PUT_CALLER,
            params![
                caller.id.number(),
                u32::from(role_number(&caller.role)),
                subject_of(&caller.role),
                caller.digest.bytes()
            ],
        )?;
        Ok(())
    }

    fn take<S: Alter>(tx: &mut Transaction<'_, S>, caller: &Caller) -> Result<(), Error> {
        tx.execute(TAKE_CALLER, params![caller.id.number()])?;
        Ok(())
    }
}

const PUT_KEPT: &str = "INSERT INTO kept (caller, number, request, reply) \
    VALUES (?1, ?2, ?3, ?4) \
    ON CONFLICT (caller) DO UPDATE SET number = ?2, request = ?3, reply = ?4";

const TAKE_KEPT: &str = "DELETE FROM kept WHERE caller = ?1";

/// Puts a caller's last accepted write, instead of the one before it.
pub(crate) fn put_kept<S: Alter>(tx: &mut Transaction<'_, S>, kept: &Kept) -> Result<(), Error>
    ensures step { Writes S.Store tx.old tx.new (λ old new. Puts kept_table kept_key FitsKept (λ x. kept_row x ∷ [])
        kept.now old new × IsDatabase new) result }
    ensures open { HasCleanDisk (state S.Store tx.new.conn.now) → IsTrue (state S.Store tx.old.conn.now).in_transaction
        → OnOk result (IsTrue (state S.Store tx.old.conn.now).is_open) }
{
    let reply = spell_reply(&kept.reply);
    tx.execute(
        PUT_KEPT,
        params![
            kept.caller.number(),
            kept.number,
            kept.request.bytes(),
            reply.as_slice()
        ],
    )?;
    Ok(())
}

impl Stored for KeptWrites {
    fn put<S: Alter>(tx: &mut Transaction<'_, S>, kept: &Kept) -> Result<(), Error> {
        put_kept(tx, kept)
    }

    fn take<S: Alter>(tx: &mut Transaction<'_, S>, kept: &Kept) -> Result<(), Error> {
        tx.execute(TAKE_KEPT, params![kept.caller.number()])?;
        Ok(())
    }
}

const PUT_PLACE: &str = "INSERT INTO places (id, x, y, core) VALUES (?1, ?2, ?3, ?4) \
    ON CONFLICT (id) DO UPDATE SET x = ?2, y = ?3, core = ?4";

const TAKE_PLACE: &str = "DELETE FROM places WHERE id = ?1";

impl Stored for Places {
    fn put<S: Alter>(tx: &mut Transaction<'_, S>, place: &Place) -> Result<(), Error> {
        tx.execute(
            PUT_PLACE,
            params![
                place.id.number(),
                place.at.x,
                place.at.y,
                u32::from(place.core)
            ],
        )?;
        Ok(())
    }

    fn take<S: Alter>(tx: &mut Transaction<'_, S>, place: &Place) -> Result<(), Error> {
        tx.execute(TAKE_PLACE, params![place.id.number()])?;
        Ok(())
    }
}

const PUT_RIDER: &str = "INSERT INTO riders (id, kind, attendant) VALUES (?1, ?2, ?3) \
    ON CONFLICT (id) DO UPDATE SET kind = ?2, attendant = ?3";

const TAKE_RIDER: &str = "DELETE FROM riders WHERE id = ?1";

impl Stored for Riders {
    fn put<S: Alter>(tx: &mut Transaction<'_, S>, rider: &Rider) -> Result<(), Error> {
        tx.execute(
            PUT_RIDER,
            params![
                rider.id.number(),
                kind_number(rider.kind),
                u32::from(rider.attendant)
            ],
        )?;
        Ok(())
    }

    fn take<S: Alter>(tx: &mut Transaction<'_, S>, rider: &Rider) -> Result<(), Error> {
        tx.execute(TAKE_RIDER, params![rider.id.number()])?;
        Ok(())
    }
}

const PUT_ROUTE: &str =
    "INSERT INTO fixed (id, width, points, accessible, days, first_min, last_min) \
    VALUES (?1, ?2, ?3, ?4, ?5, ?6, ?7) \
    ON CONFLICT (id) DO UPDATE SET width = ?2, points = ?3, accessible = ?4, days = ?5, \
    first_min = ?6, last_min = ?7";

const TAKE_ROUTE: &str = "DELETE FROM fixed WHERE id = ?1";

impl Stored for FixedRoutes {
    fn put<S: Alter>(tx: &mut Transaction<'_, S>, route: &FixedRoute) -> Result<(), Error> {
        let points = points_bytes(route);
        tx.execute(
            PUT_ROUTE,
            params![
                route.id().number(),
                route.width(),
                points.as_slice(),
                u32::from(route.accessible()),
                u32::from(days_byte(route.days())),
                route.first().number(),
                route.last().number()
            ],
        )?;
        Ok(())
    }

    fn take<S: Alter>(tx: &mut Transaction<'_, S>, route: &FixedRoute) -> Result<(), Error> {
        tx.execute(TAKE_ROUTE, params![route.id().number()])?;
        Ok(())
    }
}

const PUT_TRIP: &str = "INSERT INTO trips (id, rider, day, wish, origin, goal, latest, attendant, \
    companions, fare, service, ride, vehicle, window_from, window_to, status) \
    VALUES (?1, ?2, ?3, ?4, ?5, ?6, ?7, ?8, ?9, ?10, ?11, ?12, ?13, ?14, ?15, ?16) \
    ON CONFLICT (id) DO UPDATE SET rider = ?2, day = ?3, wish = ?4, origin = ?5, goal = ?6, \
    latest = ?7, attendant = ?8, companions = ?9, fare = ?10, service = ?11, ride = ?12, \
    vehicle = ?13, window_from = ?14, window_to = ?15, status = ?16";

const TAKE_TRIP: &str = "DELETE FROM trips WHERE id = ?1";

impl Stored for Trips {
    fn put<S: Alter>(tx: &mut Transaction<'_, S>, trip: &Trip) -> Result<(), Error> {
        tx.execute(
            PUT_TRIP,
            params![
                trip.id.number(),
                trip.rider.number(),
                trip.wish.day.number(),
                trip.wish.pickup.number(),
                trip.wish.from.number(),
                trip.wish.to.number(),
                optional_number(trip.wish.by),
                u32::from(trip.wish.attendant),
                u32::from(trip.wish.companions),
                trip.fare,
                u32::from(trip.service),
                u32::from(trip.ride),
                trip.vehicle.number(),
                trip.window_from.number(),
                trip.window_to.number(),
                status_number(trip.status)
            ],
        )?;
        Ok(())
    }

    fn take<S: Alter>(tx: &mut Transaction<'_, S>, trip: &Trip) -> Result<(), Error> {
        tx.execute(TAKE_TRIP, params![trip.id.number()])?;
        Ok(())
    }
}

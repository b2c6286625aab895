//! The SQL queries of records. Each reads one table, compares columns with the parameters, and orders by the primary
//! key.

pub(crate) const KEPT_BY_CALLER: &str =
    "SELECT caller, number, request, reply FROM kept WHERE caller = ?1 ORDER BY caller";

pub(crate) const RIDER_BY_NUMBER: &str =
    "SELECT id, kind, attendant FROM riders WHERE id = ?1 ORDER BY id";

pub(crate) const RIDER_MARKS: &str =
    "SELECT rider FROM rider_chairs WHERE rider >= ?1 AND rider <= ?2 ORDER BY rider";

pub(crate) const ENTRIES_BY_RIDER: &str =
    "SELECT rider, place, kind, day, author, a, b, conditions, words FROM entries \
     WHERE rider = ?1 ORDER BY rider, place";

pub(crate) const TRIP_BY_NUMBER: &str =
    "SELECT id, rider, day, wish, origin, goal, latest, attendant, companions, fare, service, \
     ride, vehicle, window_from, window_to, status FROM trips WHERE id = ?1 ORDER BY id";

pub(crate) const TRIPS_BY_RIDER: &str =
    "SELECT id, rider, day, wish, origin, goal, latest, attendant, companions, fare, service, \
     ride, vehicle, window_from, window_to, status FROM trips WHERE rider = ?1 ORDER BY id";

pub(crate) const TRIPS_BY_DAY: &str =
    "SELECT id, rider, day, wish, origin, goal, latest, attendant, companions, fare, service, \
     ride, vehicle, window_from, window_to, status FROM trips WHERE day = ?1 ORDER BY id";

pub(crate) const TRIPS_FROM_DAY: &str =
    "SELECT id, rider, day, wish, origin, goal, latest, attendant, companions, fare, service, \
     ride, vehicle, window_from, window_to, status FROM trips WHERE day >= ?1 ORDER BY id";

pub(crate) const TRIP_MARKS: &str =
    "SELECT trip FROM trip_chairs WHERE trip >= ?1 AND trip <= ?2 ORDER BY trip";

pub(crate) const STOPS_BY_VEHICLE_AND_DAY: &str =
    "SELECT vehicle, day, place, trip, kind FROM stops WHERE vehicle = ?1 AND day = ?2 \
     ORDER BY vehicle, day, place";

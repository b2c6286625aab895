ghost use Rattle.std.specs.Prelude.{◌≡◌, ℕ, length, vec_len};
ghost use Rattle.pt_travel.specs.Matrix.{HasTriangles};
ghost use Rattle.pt_travel.specs.Places.{list_of};

use crate::Times;
use crate::matrix::{self, Line};
use crate::places::Places;
use crate::raw::{MOST_MINUTES, Raw};
use pt_base_values::{Fault, PlaceId};
use std::alloc::{AllocError, Global};

/// The driving times by the least chains of a table's rows.
#[derive(Drop)]
pub struct Closed {
    places: Places,
    lines: Vec<Line>,
    ghost size: { vec_len lines ≡ length (list_of places) },
    ghost triangles: { HasTriangles (length (list_of places)) lines.items },
}

impl Closed {
    ghost use Rattle.std.specs.Prelude.{◌≡◌, IfErr, IfOk};
    ghost use Rattle.pt_base_values.specs.Fault.{fault};
    ghost use Rattle.pt_base_values.specs.declared.fault.Cause.TheVariants as cause;
    ghost use Rattle.pt_travel.specs.Chain.{IsTime};
    ghost use Rattle.pt_travel.specs.Times.{time_in};

    /// The closure of a table. It asks for all its memory at once, and the fault is out of memory.
    pub fn of(alloc: Global, raw: &Raw) -> Result<Self, Fault>
        ensures least { IfOk result (λ closed. (from to : ℕ) → IsTime raw.now from to (time_in closed from to)) }
        ensures memory { IfErr result (λ refused. refused ≡ fault cause.Memory) }
    {
        let places = raw.places();
        let mut lines = matrix::direct(alloc, raw.rows(), &places)?;
        for k in 0..places.len() {
            matrix::shorten(&mut lines, k);
        }
        Ok(Closed { places, lines })
    }

    /// A copy, with the same driving times.
    pub fn copy(&self, alloc: Global) -> Result<Self, AllocError>
        ensures same { IfOk result (λ copy. (from to : ℕ) → time_in copy from to ≡ time_in self.now from to) }
    {
        Ok(Closed {
            places: self.places,
            lines: Vec::from_slice(alloc, &self.lines)?,
        })
    }
}

impl Times for Closed {
    ghost use Rattle.pt_travel.specs.Times.{time_in};
    ghost use Rattle.pt_travel.specs.Laws.{stays_in, within_a_day_in, triangle_in};

    ghost minutes = { time_in };

    ghost stays = { stays_in };

    ghost within_a_day = { within_a_day_in };

    ghost triangle = { triangle_in };

    fn minutes(&self, from: PlaceId, to: PlaceId) -> Option<u16> {
        if from == to {
            return Some(0);
        }
        let line = &self.lines[self.places.position(from)?];
        let minutes = line[self.places.position(to)?];
        if minutes <= MOST_MINUTES {
            Some(minutes)
        } else {
            None
        }
    }
}

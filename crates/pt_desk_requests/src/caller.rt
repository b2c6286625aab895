ghost use Rattle.std.specs.Prelude.{◌≡◌, ℕ, List, length};
ghost use Rattle.sha2.specs.Sha256.{sha256};

use pt_base_records::{Key, Keyed};
use pt_base_values::{CallerId, RiderId, VehicleId};
use sha2::{Digest as _, Sha256};
use std::marker::Model;

/// What a caller does for the agency, which decides what the caller may ask.
#[derive(Clone, Copy)]
pub enum Role {
    /// A rider, who asks about the rider's own record and trips.
    Rider(RiderId),
    /// Takes applications and books at the counter.
    Clerk,
    /// Decides applications.
    Examiner,
    /// Hears and decides appeals and suspensions.
    Officer,
    /// Plans the vehicles.
    Dispatcher,
    /// The driver of a vehicle.
    Driver(VehicleId),
    /// Sets up callers, policy, places and routes.
    Admin,
}

/// The SHA-256 digest of a caller's key.
#[derive(Clone, Copy, PartialEq, Eq)]
pub struct Digest {
    bytes: [u8; 32],
}

impl Model for Digest {
    ghost Value = { List ℕ };

    ghost view = { λ digest. digest.bytes };

    ghost invariant = { λ digest. length digest.bytes ≡ 32 };

    ghost inverse = { λ bytes. record { bytes = bytes } };
}

impl Digest {
    /// These bytes as a digest.
    pub fn of(bytes: [u8; 32]) -> Self
        ensures value { result ≡ bytes }
        ensures size { length result ≡ 32 }
    {
        Digest { bytes }
    }

    /// The digest of a key.
    pub fn of_key(key: &[u8]) -> Self
        ensures value { result ≡ sha256 key.now }
        ensures size { length result ≡ 32 }
    {
        Digest {
            bytes: Sha256::digest(key),
        }
    }

    /// The 32 bytes.
    pub fn bytes(&self) -> &[u8]
        ensures value { result.now ≡ self.now }
    {
        &self.bytes
    }
}

/// Somebody who has a key to the desk.
#[derive(Clone, Copy)]
pub struct Caller {
    pub id: CallerId,
    pub role: Role,
    pub digest: Digest,
}

impl Caller {
    /// A copy. Its digest has 32 bytes, like every digest.
    pub fn copy(&self) -> Self
        ensures value { result ≡ self.now }
        ensures digest { length result.digest ≡ 32 }
    {
        Caller {
            id: self.id,
            role: self.role,
            digest: Digest::of(self.digest.bytes),
        }
    }
}

impl Keyed for Caller {
    ghost key = { λ caller. caller.id };

    fn key(&self) -> Key {
        Key::of(self.id.number())
    }
}

ghost use Rattle.std.specs.Prelude.{◌≡◌, ℕ, List};

use std::marker::Model;

/// The bytes that spell a request.
#[derive(Drop)]
pub struct Spelling {
    bytes: Vec<u8>,
}

impl Model for Spelling {
    ghost Value = { List ℕ };

    ghost view = { λ spelling. spelling.bytes.items };
}

impl Spelling {
    /// These bytes as a spelling.
    pub fn of(bytes: Vec<u8>) -> Self
        ensures value { result ≡ bytes.items }
    {
        Spelling { bytes }
    }

    /// The bytes.
    pub fn bytes(&self) -> &[u8]
        ensures value { result.now ≡ self.now }
    {
        &self.bytes
    }
}

//! A hasher, seen as the message that it holds.
use crate::message::Message;
use sha2::{Digest, Sha256};
use std::marker::Model;

/// A hasher under SHA-256. Contracts see the bytes that it was given.
#[derive(Drop)]
pub(crate) struct Hasher {
    state: Sha256,
    message: Message,
}

impl Model for Hasher {
    ghost use Rattle.std.specs.Prelude.{ℕ, List};
    ghost use Rattle.sha2.specs.Hashers.{Holds256};

    ghost Value = { List ℕ };

    ghost view = { λ h. h.message.bytes };

    ghost invariant = { λ h. Holds256 h.state h.message.bytes };
}

impl Hasher {
    ghost use Rattle.std.specs.Prelude.{◌≡◌, [], ◌++◌};
    ghost use Rattle.sha2.specs.Sha256.{sha256};

    /// A hasher that was given nothing.
    pub(crate) fn new() -> Hasher
        ensures { result ≡ [] }
    {
        Hasher {
            state: Sha256::new(),
            message: Message::empty(),
        }
    }

    /// The digest of these bytes.
    pub(crate) fn digest(bytes: &[u8]) -> [u8; 32]
        ensures { result ≡ sha256 bytes.now }
    {
        Sha256::digest(bytes)
    }

    /// Gives it these bytes.
    pub(crate) fn give(&mut self, bytes: &[u8])
        ensures { self.new ≡ self.old ++ bytes.now }
    {
        self.state.update(bytes);
        self.message = self.message.with_part(bytes);
    }

    /// The digest of what it was given so far.
    pub(crate) fn digest_so_far(&self) -> [u8; 32]
        ensures { result ≡ sha256 self.now }
    {
        self.state.clone().unwrap().finalize()
    }

    /// The digest of what it was given; it begins again with nothing.
    pub(crate) fn end_and_begin(&mut self) -> [u8; 32]
        ensures digest { result ≡ sha256 self.old }
        ensures empty { self.new ≡ [] }
    {
        let digest = self.digest_so_far();
        *self = Hasher::new();
        digest
    }
}

//! Challenges that are drawn from all that came before them.

#![tactic(auto)]

ghost use Rattle.std.specs.Prelude.{◌≡◌, ◌++◌, ◌∷◌, List, ℕ};
ghost use Rattle.std.specs.Int.{to_le_bytes, w64};
ghost use Rattle.sha2.specs.Hashers.{Holds256};
ghost use Rattle.transcript.specs.Transcript.{FollowsEvents, after_absorb, after_draw, bytes_of, shown, start};

use sha2::{Digest, Sha256};
use std::marker::Model;
use tower_field::B128;

/// A hash of all that was absorbed and drawn. A contract sees its state, a list of 32 bytes.
/// None of its calls takes memory.
#[derive(Drop)]
pub struct Transcript {
    state: [u8; 32],
}

impl Model for Transcript {
    ghost Value = { List ℕ };

    ghost view = { λ transcript. transcript.state };
}

impl Transcript {
    /// The transcript of nothing: 32 bytes 0.
    pub fn start() -> Transcript
        ensures { result ≡ start }
    {
        Transcript { state: [0; 32] }
    }

    // A hasher of the state, the tag and the number of the bytes to come.
    fn hasher(&self, tag: u8, len: u64) -> Sha256
        ensures { Holds256 result (self.now ++ 0 ∷ tag ∷ to_le_bytes w64 len) }
    {
        let mut hasher = Sha256::new();
        hasher.update(&self.state);
        hasher.update([0, tag]);
        hasher.update(len.to_le_bytes());
        hasher
    }

    /// Absorbs bytes under a tag.
    pub fn absorb(&mut self, tag: u8, bytes: &[u8])
        ensures { self.new ≡ after_absorb self.old tag bytes.now }
    {
        let mut hasher = self.hasher(tag, bytes.len() as u64);
        hasher.update(bytes);
        self.state = hasher.finalize();
    }

    /// Absorbs the bytes of values under a tag: 16 for each, the lowest first.
    pub fn absorb_values(&mut self, tag: u8, values: &[B128])
        ensures { self.new ≡ after_absorb self.old tag (bytes_of values.now) }
    {
        let mut hasher = self.hasher(tag, 16 * values.len() as u64);
        for value in values {
            hasher.update(value.to_bytes());
        }
        self.state = hasher.finalize();
    }

    /// Draws the next challenge.
    pub fn draw(&mut self) -> B128
        ensures state { self.new ≡ after_draw self.old }
        ensures challenge { result ≡ shown self.new }
    {
        let mut hasher = Sha256::new();
        hasher.update(&self.state);
        hasher.update([1u8]);
        self.state = hasher.finalize();
        let mut low = [0u8; 16];
        low.copy_from_slice(&self.state[..16]);
        B128::from_bytes(low)
    }
}

/// A challenge is a function of the events before it, in their order.
pub fn challenges()
    ensures { FollowsEvents }
{}

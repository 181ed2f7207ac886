//! The random bytes of an event. New nonces are drawn from these bytes, in order.

ghost use Rattle.std.specs.Prelude.{◌≡◌, ◌≤◌, ℕ, List, length, take, drop};

use std::marker::Model;
use tpm_session::Nonce;

/// The unused random bytes of an event. In contracts, they are a list.
#[derive(Drop)]
pub struct Draws<'a> {
    left: &'a [u8],
}

impl<'a> Model for Draws<'a> {
    ghost Value = { List ℕ };

    ghost view = { λ d. d.left.now };
}

impl<'a> Draws<'a> {
    /// Starts with these random bytes, none of which is used yet.
    pub fn new(left: &'a [u8]) -> Draws<'a>
        ensures { result ≡ left.now }
    {
        Draws { left }
    }

    /// The number of random bytes that are left.
    pub fn len(&self) -> usize
        ensures { result ≡ length self.now }
    {
        self.left.len()
    }

    /// Draws a nonce, which consists of the first `size` unused bytes.
    pub fn nonce(&mut self, size: usize) -> Nonce
        requires small { size ≤ 32 }
        requires enough { size ≤ length self.old }
        ensures nonce { result ≡ take size self.old }
        ensures left { self.new ≡ drop size self.old }
    {
        let (front, back) = self.left.split_at(size);
        self.left = back;
        Nonce::of(front)
    }
}

//! What was spawned.
ghost use Rattle.std.specs.Prelude.{◌≡◌};

use std::marker::Model;
use std::snapshot::Snapshot;

/// A body as it was spawned, which contracts alone see.
#[derive(Drop)]
pub struct Spawned<T> {
    body: Snapshot<T>,
}

impl<T> Model for Spawned<T> {
    ghost Value = { T };

    ghost view = { λ spawned. spawned.body.value };
}

impl<T> Spawned<T> {
    /// This body.
    pub fn of(body: &T) -> Spawned<T>
        ensures same { result ≡ body.now }
    {
        Spawned {
            body: Snapshot::of(body),
        }
    }
}

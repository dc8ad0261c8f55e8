//! How far the text of a run is.
ghost use Rattle.std.specs.Prelude.{◌≤◌};

/// How many rows the text has. The first `begun` of them are all that the places before `next` give.
#[derive(Clone, Copy, Debug)]
pub struct Written {
    pub next: u64,
    pub begun: u64,
    pub rows: u64,
    ghost in_order: { begun ≤ rows },
}

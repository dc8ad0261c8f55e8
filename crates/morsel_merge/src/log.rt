//! A list that clauses alone see.
ghost use Rattle.std.specs.Prelude.{◌≡◌, [], ◌∷◌, ◌++◌, IfOk};

use atomic_table::{Play, Seat, Table, TableRule};
use std::alloc::{AllocError, Global};
use std::collections::LinkedList;

/// A rule that asks nothing.
pub struct Unruled;

impl<X> TableRule<X, LinkedList<X>, ()> for Unruled {
    ghost use Rattle.std.specs.Prelude.{[], ⊤};

    ghost holds = { λ key state. ⊤ };

    ghost first = { λ key. [] };
}

struct Append;

impl<X> Play<X, LinkedList<X>> for Append {
    ghost use Rattle.morsel_merge.specs.Log.{Appends};

    ghost then = { Appends X };
}

/// A list that clauses alone see.
#[derive(Drop)]
pub struct Log<X> {
    table: Table<X, LinkedList<X>, (), Unruled, Global>,
    pub(crate) seat: Seat<X, LinkedList<X>>,
    ghost one_word: { table.shared.table_id.words ≡ 1 },
    ghost seated: { seat.table_id ≡ table.shared.table_id },
    ghost holds: { seat.me.1 ≡ [] },
}

impl<X> Log<X> {
    /// The empty list.
    pub fn new(alloc: Global) -> Result<Log<X>, AllocError>
        ensures { IfOk result (λ log. log.seat.me.0 ≡ []) }
    {
        let (table, seat) = Table::of_words(alloc, &[0], &())?;
        Ok(Log { table, seat })
    }

    /// Puts `x` last.
    pub fn write(&mut self, x: &X)
        ensures table { self.new.seat.table_id ≡ self.old.seat.table_id }
        ensures list { self.new.seat.me.0 ≡ self.old.seat.me.0 ++ x.now ∷ [] }
    {
        let table = &self.table;
        table
            .shared
            .compare_exchange_with::<Append>(&mut self.seat, 0, 0, 0, x);
    }
}

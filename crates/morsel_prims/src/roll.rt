//! Lists that clauses alone see: a roll knows all of them, and each row knows its own.
ghost use Rattle.std.specs.Prelude.{◌≡◌, ℕ, ◌-◌, ◌<◌, true, false, List, [], ◌∷◌, ◌++◌, length, slice_set, IfOk};
ghost use mathlib.Core.Option.{some};
ghost use lib.ListN.{get_elem?};
ghost use Rattle.morsel_prims.specs.Rows.{IsNext, keeper_view, holder_view, place_of_row, list_of_row};

use crate::row_view::RowView;
use atomic_table::{Badge, Join, Play, Seat, Split, Table, TableRule};
use std::alloc::{AllocError, Global};
use std::mem;

/// What all seats of a roll know agrees with one list of rows.
pub struct Ruled;

impl<T> TableRule<T, RowView<T>, ()> for Ruled {
    ghost use Rattle.morsel_prims.specs.Rows.{IsRolled, keeper_view};

    ghost holds = { λ _. IsRolled T };

    ghost first = { λ _. keeper_view [] };
}

struct Look;

impl<T> Play<T, RowView<T>> for Look {
    ghost use Rattle.morsel_prims.specs.Rows.{LooksAtRow};

    ghost then = { LooksAtRow };
}

struct Write;

impl<T> Play<T, RowView<T>> for Write {
    ghost use Rattle.morsel_prims.specs.Rows.{WritesRow};

    ghost then = { WritesRow T };
}

struct Copying;

impl<T> Play<T, RowView<T>> for Copying {
    ghost use Rattle.morsel_prims.specs.Rows.{CopiesRow};

    ghost then = { CopiesRow T };
}

struct Add;

impl<T> Play<T, RowView<T>> for Add {
    ghost use Rattle.morsel_prims.specs.Rows.{AddsRow};

    ghost then = { AddsRow };
}

struct Lend;

impl<T> Join<RowView<T>> for Lend {
    ghost use Rattle.morsel_prims.specs.Rows.{lent_view, nobody_view};

    ghost both = { lent_view };

    ghost spent = { nobody_view };
}

struct Back;

impl<T> Split<RowView<T>> for Back {
    ghost use Rattle.morsel_prims.specs.Rows.{alone_view, guest_view};

    ghost left = { alone_view };

    ghost right = { guest_view };
}

/// All lists.
#[derive(Drop)]
pub struct Roll<T> {
    table: Table<T, RowView<T>, (), Ruled, Global>,
    seat: Seat<T, RowView<T>>,
    ghost one_word: { table.shared.table_id.words ≡ 1 },
    ghost seated: { seat.table_id ≡ table.shared.table_id },
    ghost keeps: { seat.me.0.keeps ≡ true },
    ghost holds: { seat.me.1 ≡ [] },
}

/// One list.
#[derive(Drop)]
pub struct RollRow<T> {
    badge: Badge<RowView<T>>,
    ghost held: { badge.views ≡ holder_view (place_of_row badge.views) (list_of_row badge.views) ∷ [] },
}

impl<T> Roll<T> {
    /// No lists.
    pub fn new(alloc: Global) -> Result<Roll<T>, AllocError>
        ensures { IfOk result (λ r. r.seat.me.0 ≡ keeper_view []) }
    {
        let (table, seat) = Table::of_words(alloc, &[0], &())?;
        Ok(Roll { table, seat })
    }

    /// One more list, which is empty.
    pub fn add(&mut self) -> RollRow<T>
        ensures table { self.new.seat.table_id ≡ self.old.seat.table_id }
        ensures rows { self.new.seat.me.0.rows ≡ self.old.seat.me.0.rows ++ [] ∷ [] }
        ensures row { (result.badge.table_id ≡ self.old.seat.table_id) × (result.badge.views ≡ holder_view (length self.old.seat.me.0.rows) [] ∷ []) }
    {
        let table = &self.table;
        table.shared.load::<Add>(&mut self.seat, 0);
        let seat = table.shared.split_seat::<Back>(&mut self.seat);
        RollRow {
            badge: seat.into_badge(),
        }
    }

    /// Changes nothing, and tells that the roll has the row's list at its place.
    pub fn look(&mut self, row: &mut RollRow<T>)
        requires { row.old.badge.table_id ≡ self.old.seat.table_id }
        ensures table { (self.new.seat.table_id ≡ self.old.seat.table_id) × (row.new.badge.table_id ≡ row.old.badge.table_id) }
        ensures same { (row.new.badge.views ≡ row.old.badge.views) × (self.new.seat.me.0.rows ≡ self.old.seat.me.0.rows) }
        ensures list { get_elem? self.old.seat.me.0.rows (place_of_row row.old.badge.views) ≡ some (list_of_row row.old.badge.views) }
    {
        let seat = mem::replace(&mut row.badge, Badge::blank()).into_seat();
        let table = &self.table;
        table.shared.join_seat::<Lend>(&mut self.seat, seat);
        table.shared.load::<Look>(&mut self.seat, 0);
        let seat = table.shared.split_seat::<Back>(&mut self.seat);
        row.badge = seat.into_badge();
    }

    /// Puts `x` last in the row's list.
    pub fn write(&mut self, row: &mut RollRow<T>, x: &T)
        requires { row.old.badge.table_id ≡ self.old.seat.table_id }
        ensures table { (self.new.seat.table_id ≡ self.old.seat.table_id) × (row.new.badge.table_id ≡ row.old.badge.table_id) × (place_of_row row.new.badge.views ≡ place_of_row row.old.badge.views) }
        ensures same { get_elem? self.old.seat.me.0.rows (place_of_row row.old.badge.views) ≡ some (list_of_row row.old.badge.views) }
        ensures list { list_of_row row.new.badge.views ≡ list_of_row row.old.badge.views ++ x.now ∷ [] }
        ensures rows { self.new.seat.me.0.rows ≡ slice_set self.old.seat.me.0.rows (place_of_row row.old.badge.views) (list_of_row row.old.badge.views ++ x.now ∷ []) }
    {
        let seat = mem::replace(&mut row.badge, Badge::blank()).into_seat();
        let table = &self.table;
        table.shared.join_seat::<Lend>(&mut self.seat, seat);
        table
            .shared
            .compare_exchange_with::<Write>(&mut self.seat, 0, 0, 0, x);
        let seat = table.shared.split_seat::<Back>(&mut self.seat);
        row.badge = seat.into_badge();
    }

    /// Writes what comes next in the list before the row's own. It costs less than a write of anything.
    pub fn copy(&mut self, row: &mut RollRow<T>, x: &T)
        requires table { row.old.badge.table_id ≡ self.old.seat.table_id }
        requires next { IsNext self.old.seat.me.0.rows (place_of_row row.old.badge.views - 1) (length (list_of_row row.old.badge.views)) x.now }
        ensures table { (self.new.seat.table_id ≡ self.old.seat.table_id) × (row.new.badge.table_id ≡ row.old.badge.table_id) × (place_of_row row.new.badge.views ≡ place_of_row row.old.badge.views) }
        ensures list { list_of_row row.new.badge.views ≡ list_of_row row.old.badge.views ++ x.now ∷ [] }
        ensures rows { self.new.seat.me.0.rows ≡ slice_set self.old.seat.me.0.rows (place_of_row row.old.badge.views) (list_of_row row.old.badge.views ++ x.now ∷ []) }
    {
        let _ = x;
        let seat = mem::replace(&mut row.badge, Badge::blank()).into_seat();
        let table = &self.table;
        table.shared.join_seat::<Lend>(&mut self.seat, seat);
        table.shared.load::<Copying>(&mut self.seat, 0);
        let seat = table.shared.split_seat::<Back>(&mut self.seat);
        row.badge = seat.into_badge();
    }

    /// One more list, which begins with this.
    pub fn begin(&mut self, x: &T) -> RollRow<T>
        ensures table { (self.new.seat.table_id ≡ self.old.seat.table_id) × (result.badge.table_id ≡ self.old.seat.table_id) }
        ensures rows { self.new.seat.me.0.rows ≡ self.old.seat.me.0.rows ++ (x.now ∷ []) ∷ [] }
        ensures place { place_of_row result.badge.views ≡ length self.old.seat.me.0.rows }
        ensures list { list_of_row result.badge.views ≡ x.now ∷ [] }
    {
        let mut row = self.add();
        self.write(&mut row, x);
        row
    }
}

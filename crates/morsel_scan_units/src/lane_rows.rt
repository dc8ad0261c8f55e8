//! The lanes of a scan as lanes of rows, before and behind a join.
use crate::at_home::AtHome;
use crate::lane_job::LaneJob;
use morsel_outside::Io;
use morsel_rows_job::RowsJob;

impl<K: AtHome, G: AtHome, H: Io> RowsJob<K> for LaneJob<G, H> {
    ghost use Rattle.morsel_scan_units.specs.LaneRows.{CarriesCuts, CarriesRows, PlacesGive, PlacesYield, AreScanRows, FindsBetween, AloneBetween, IsGivenLane};
    ghost use Rattle.morsel_scan_units.specs.RowLaws.{are_whole, rows_given, none_given, more_given, found_suits, alone_suits, have_columns, cuts_give, given_suits};

    ghost gives_rows = { CarriesRows };

    ghost gives = { PlacesGive };

    ghost is_all = { AreScanRows };

    ghost finds = { FindsBetween };

    ghost is_alone = { AloneBetween };

    ghost gives_cuts = { CarriesCuts };

    ghost yields = { PlacesYield };

    ghost is_given = { IsGivenLane };

    ghost are_rows = { are_whole };

    ghost rows_are = { rows_given };

    ghost gives_none = { λ job columns carries. none_given job };

    ghost gives_next = { λ job columns from mid to before after carries. more_given job from mid to before after };

    ghost found_suit = { found_suits };

    ghost alone_suit = { alone_suits };

    ghost are_cuts = { have_columns };

    ghost cuts_yield = { λ job columns cuts to carries. cuts_give job cuts to };

    ghost given_suit = { given_suits };
}

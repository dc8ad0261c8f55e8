//! What lanes of rows are for.
use morsel_load::LoadJob;

/// What lanes of rows are for, before and behind a join. Contracts alone see it.
///
/// The rows of a lane before a join come in whole stretches: each load has all rows of its stretch. Behind it they may be cut, so that
/// a load has some of them. Places are those that stretches go from and up to.
pub trait RowsJob<K>: LoadJob<K> {
    ghost use Rattle.std.specs.Prelude.{◌≡◌, ◌++◌, ℕ, List, []};
    ghost use Rattle.std.specs.List.{All};
    ghost use Rattle.morsel_meaning.specs.declared.value.Field.{Field};
    ghost use Rattle.morsel_meaning.specs.Values.{Row, Table};
    ghost use Rattle.morsel_load.specs.Sources.{SourceSeen};
    ghost use Rattle.morsel_load.specs.Loads.{LoadSeen, SeenMorsel};
    ghost use Rattle.morsel_load.specs.declared.morsels.Stretch.{Stretch};
    ghost use Rattle.morsel_join.specs.Sides.{KeptSide, rows_alone, rows_found};
    ghost use Rattle.morsel_rows_job.specs.RowsJobs.{AreRowsWith, AreWholeRows, FollowCuts, IsCutFor, IsCutOf, RowsCut, alone_stretch, rows_of_cuts};

    /// Its loads are rows of these columns, in whole stretches.
    ghost gives_rows: { Self → List Field → Type 0 };

    /// The places from one up to another give these rows.
    ghost gives: { Self → ℕ → ℕ → List Row → Type 0 };

    /// All its places before a fault give these rows.
    ghost is_all: { Self → List Row → Type 0 };

    /// The loads of the second job are of what the rows of the first one find on this kept side.
    ghost finds: { KeptSide → Self → Self → Type 0 };

    /// The second job is of one place, which gives the kept rows of this side that none of the first one's rows finds.
    ghost is_alone: { KeptSide → Self → Self → Type 0 };

    /// Its loads are rows of these columns, in whole stretches or cut.
    ghost gives_cuts: { Self → List Field → Type 0 };

    /// All its places up to one give these rows at the end of what the lanes are for: behind a join what their rows find, or the one
    /// place of the kept rows that none finds.
    ghost yields: { Self → ℕ → List Row → Type 0 };

    /// It is of one place, which gives these rows, of these columns.
    ghost is_given: { List Field → List Row → Self → Type 0 };

    /// A load of rows in whole stretches is one.
    ghost are_rows: { (job : Self) (columns : List Field) (load : LoadSeen) → gives_rows job columns → Self.suits job load → AreWholeRows columns load };

    /// Its rows are those that its stretch gives.
    ghost rows_are: { (job : Self) (columns : List Field) (frame : Table) (seq : ℕ) (source : SourceSeen) (stretch : Stretch) → gives_rows job columns → Self.suits job (SeenMorsel frame seq source stretch) → gives job stretch.from stretch.to frame.rows };

    /// No place gives no row.
    ghost gives_none: { (job : Self) (columns : List Field) → gives_rows job columns → gives job 0 0 [] };

    /// Stretches that follow one another give rows that do.
    ghost gives_next: { (job : Self) (columns : List Field) (from mid to : ℕ) (before after : List Row) → gives_rows job columns → gives job from mid before → gives job mid to after → gives job from to (before ++ after) };

    /// Some of what the rows of a load find suit the job behind the join, with a token of the load's source.
    ghost found_suit: { (side : KeptSide) (from to : Self) (asked found : Table) (seq : ℕ) (source other : SourceSeen) (stretch cut : Stretch) → finds side from to → Self.suits from (SeenMorsel asked seq source stretch)
        → found.schema ≡ side.rules.output → IsCutOf (rows_found side asked.rows) stretch found.rows cut → other.source ≡ source.source → Self.suits to (SeenMorsel found seq other cut) };

    /// Some of the kept rows that no row finds suit the job of their place.
    ghost alone_suit: { (side : KeptSide) (from to : Self) (asked : List Row) (found : Table) (seq : ℕ) (source : SourceSeen) (cut : Stretch) → is_alone side from to → is_all from asked
        → found.schema ≡ side.rules.output → IsCutOf (rows_alone side asked) alone_stretch found.rows cut → Self.suits to (SeenMorsel found seq source cut) };

    /// A load of rows has its columns.
    ghost are_cuts: { (job : Self) (columns : List Field) (load : LoadSeen) → gives_cuts job columns → Self.suits job load → AreRowsWith columns load };

    /// Cuts that follow one another have the rows of all places up to where they end.
    ghost cuts_yield: { (job : Self) (columns : List Field) (cuts : List RowsCut) (to : ℕ) → gives_cuts job columns → All (IsCutFor (λ made load. Self.suits made load) job) cuts → FollowCuts cuts to → yields job to (rows_of_cuts cuts) };

    /// Some of the rows that are given suit the job of their place.
    ghost given_suit: { (columns : List Field) (rows : List Row) (to : Self) (found : Table) (seq : ℕ) (source : SourceSeen) (cut : Stretch) → is_given columns rows to
        → found.schema ≡ columns → IsCutOf rows alone_stretch found.rows cut → Self.suits to (SeenMorsel found seq source cut) };
}

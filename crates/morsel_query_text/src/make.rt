//! The query of a text, where it has no flaw.
ghost use Rattle.std.specs.Prelude.{◌≡◌, ◌∷◌, [], Some, None, IfOk, IfErr, IfSome, IsNone, IsOkUnless, option_map};
ghost use Rattle.morsel_frame.specs.Refusals.{Refuses, fault_of_repeat};
ghost use Rattle.morsel_query.specs.Queries.{file_scan, join_part, HaveTheirColumns};
ghost use Rattle.morsel_query.specs.QueryFlaws.{AreSound, IsFlaw, keys_of_group};
ghost use Rattle.morsel_query_text.specs.Predicates.{pred_tree};
ghost use Rattle.morsel_query_text.specs.Written.{join_written, scan_written};
ghost use Rattle.morsel_query_text.specs.TextFlaws.{IsFlawless, IsTooDeep, keys_in, keys_written, name_repeated, repeat_of_format, repeat_of_scans, right_scans, side_written, sides_written};
ghost use Rattle.morsel_query_text.specs.Answers.{IsMadeOf, IsMadeOfParts, IsReadable, IsRightReadable, RefusesFlaw, RefusesMade, RefusesReading, RefusesRight};
ghost use Rattle.morsel_query_text.specs.Borrowed.{join_of_parts, join_of_text, query_of_flawless, query_of_text, scan_of_parts, scan_of_text};

use crate::join::JoinText;
use crate::scan::ScanText;
use crate::text::QueryText;
use morsel_expr::{Pred, PredNode};
use morsel_frame::Schema;
use morsel_grammar::CsvOptions;
use morsel_group::GroupSpec;
use morsel_join::JoinArgs;
use morsel_meaning::{Fault, Field, Name, Why};
use morsel_query::{JoinHow, JoinSpec, Options, Query, flaw_of_group, flaw_of_keys, flaw_of_side};
use morsel_scan::{FileScanOptions, ScanFormat, ScanSpec};
use morsel_sink::{SinkFormat, SinkSpec};
use std::alloc::Global;

/// A scan, of which it is known how its files are read.
#[derive(Debug, Drop)]
struct ScanParts {
    files: Vec<Name>,
    fields: Vec<Field>,
    options: CsvOptions,
    asked: FileScanOptions,
    filter: Option<Pred>,
}

/// A join, of which it is known how the files of its right side are read.
#[derive(Debug, Drop)]
struct JoinParts {
    right: ScanParts,
    left_keys: Vec<Name>,
    right_keys: Vec<Name>,
    args: JoinArgs,
    how: JoinHow,
}

/// A query without flaws, before its schemas are made.
#[derive(Debug, Drop)]
struct FlawlessText {
    left: ScanParts,
    join: Option<JoinParts>,
    group: Option<GroupSpec>,
    sink: SinkFormat,
    options: Options,
}

/// The query and the options of a text. Each flaw comes before a name that a schema has twice.
pub fn make_query(alloc: Global, text: QueryText<'_>, out: &str) -> Result<(Query, Options), Fault>
    requires { HaveTheirColumns text.group }
    ensures ok { IfOk result (λ pair. IsMadeOf (query_of_text text.entry) out.now pair.0 pair.1) }
    ensures refused { IfErr result (RefusesMade (query_of_text text.entry) out.now) }
{
    let flawless = flawless_text(alloc, text, out)?;
    make_flawless(alloc, flawless, out)
}

/// A text that has no flaw; else one of its flaws.
fn flawless_text(alloc: Global, text: QueryText<'_>, out: &str) -> Result<FlawlessText, Fault>
    requires { HaveTheirColumns text.group }
    ensures ok { IfOk result (λ made. query_of_flawless made ≡ query_of_text text.entry) }
    ensures columns { IfOk result (λ made. HaveTheirColumns made.group) }
    ensures flawless { IfOk result (λ made. IsFlawless (query_of_text text.entry) out.now) }
    ensures refused { IfErr result (RefusesFlaw (query_of_text text.entry) out.now) }
{
    if let Some(why) = flaw_of_text(&text, out) {
        return Err(Fault::InvalidQuery { why });
    }
    let QueryText {
        left,
        join,
        group,
        sink,
        options,
    } = text;
    let options = options.options()?;
    let left = readable_scan(alloc, left)?;
    let join = readable_join_if(alloc, join)?;
    Ok(FlawlessText {
        left,
        join,
        group,
        sink,
        options,
    })
}

/// A flaw of the sides, of the keys and of the sink's name.
#[tactic(auto, using(morsel_query::proofs::SideLemmas::flaw_before_group, morsel_query::proofs::SideLemmas::flaw_in_group, morsel_query::proofs::SideLemmas::sound_with_group))]
fn flaw_of_text(text: &QueryText<'_>, out: &str) -> Option<Why>
    ensures some { IfSome result (IsFlaw (sides_written (query_of_text text.now)) (keys_written (query_of_text text.now)) (keys_of_group text.now.group) out.now) }
    ensures none { IsNone result → AreSound (sides_written (query_of_text text.now)) (keys_written (query_of_text text.now)) (keys_of_group text.now.group) out.now }
{
    if let Some(why) = flaw_of_sides(text, out) {
        return Some(why);
    }
    flaw_of_group(&text.group)
}

/// A flaw of the sides, of the keys of a join and of the sink's name.
#[tactic(auto, using(morsel_query::proofs::SideLemmas::flaw_in_front, morsel_query::proofs::SideLemmas::flaw_behind, morsel_query::proofs::SideLemmas::sound_with_side))]
fn flaw_of_sides(text: &QueryText<'_>, out: &str) -> Option<Why>
    ensures some { IfSome result (IsFlaw (sides_written (query_of_text text.now)) (keys_written (query_of_text text.now)) None out.now) }
    ensures none { IsNone result → AreSound (sides_written (query_of_text text.now)) (keys_written (query_of_text text.now)) None out.now }
{
    if let Some(why) = flaw_of_scan(&text.left, out) {
        return Some(why);
    }
    match &text.join {
        Some(join) => flaw_of_join(join, out),
        None => None,
    }
}

/// A flaw of a scan.
fn flaw_of_scan(scan: &ScanText<'_>, out: &str) -> Option<Why>
    ensures some { IfSome result (IsFlaw (side_written (scan_of_text scan.now) ∷ []) None None out.now) }
    ensures none { IsNone result → AreSound (side_written (scan_of_text scan.now) ∷ []) None None out.now }
{
    flaw_of_side(&scan.files, Some(scan.fields.len()), out)
}

/// A flaw of a join, its right side included.
#[tactic(auto, using(morsel_query::proofs::SideLemmas::flaw_in_front, morsel_query::proofs::SideLemmas::flaw_among_keys, morsel_query::proofs::SideLemmas::sound_with_keys))]
fn flaw_of_join(join: &JoinText<'_>, out: &str) -> Option<Why>
    ensures some { IfSome result (IsFlaw (side_written (scan_of_text join.now.right) ∷ []) (Some (keys_in (join_of_text join.now))) None out.now) }
    ensures none { IsNone result → AreSound (side_written (scan_of_text join.now.right) ∷ []) (Some (keys_in (join_of_text join.now))) None out.now }
{
    if let Some(why) = flaw_of_scan(&join.right, out) {
        return Some(why);
    }
    flaw_of_keys(&join.left_keys, &join.right_keys)
}

/// A scan whose files can be read as they are written, and whose predicate is not too deep.
fn readable_scan(alloc: Global, scan: ScanText<'_>) -> Result<ScanParts, Fault>
    ensures ok { IfOk result (λ parts. scan_of_parts parts ≡ scan_of_text scan.entry) }
    ensures readable { IfOk result (λ parts. IsReadable (scan_of_text scan.entry)) }
    ensures refused { IfErr result (RefusesReading (scan_of_text scan.entry)) }
{
    let ScanText {
        files,
        fields,
        csv,
        asked,
        filter,
    } = scan;
    let options = csv.options(alloc)?;
    let filter = pred_if(filter)?;
    Ok(ScanParts {
        files,
        fields,
        options,
        asked,
        filter,
    })
}

/// A join whose right side can be read so.
fn readable_join(alloc: Global, join: JoinText<'_>) -> Result<JoinParts, Fault>
    ensures ok { IfOk result (λ parts. join_of_parts parts ≡ join_of_text join.entry) }
    ensures readable { IfOk result (λ parts. IsReadable (scan_of_text join.entry.right)) }
    ensures refused { IfErr result (RefusesReading (scan_of_text join.entry.right)) }
{
    let JoinText {
        right,
        left_keys,
        right_keys,
        args,
        how,
    } = join;
    let right = readable_scan(alloc, right)?;
    Ok(JoinParts {
        right,
        left_keys,
        right_keys,
        args,
        how,
    })
}

/// The same, where there is a join.
fn readable_join_if(alloc: Global, join: Option<JoinText<'_>>) -> Result<Option<JoinParts>, Fault>
    ensures ok { IfOk result (λ parts. option_map join_of_parts parts ≡ option_map join_of_text join.entry) }
    ensures readable { IfOk result (λ parts. IsRightReadable (option_map join_of_text join.entry)) }
    ensures refused { IfErr result (RefusesRight (option_map join_of_text join.entry)) }
{
    match join {
        Some(join) => Ok(Some(readable_join(alloc, join)?)),
        None => Ok(None),
    }
}

/// The query of a text without flaws, whose schemas have no name twice.
fn make_flawless(alloc: Global, text: FlawlessText, out: &str) -> Result<(Query, Options), Fault>
    requires flawless { IsFlawless (query_of_flawless text) out.now }
    requires columns { HaveTheirColumns text.group }
    ensures ok { IfOk result (λ pair. IsMadeOfParts (query_of_flawless text) out.now pair.0 pair.1) }
    ensures refused { Refuses (fault_of_repeat (name_repeated (query_of_flawless text))) result }
{
    let FlawlessText {
        left,
        join,
        group,
        sink,
        options,
    } = text;
    let left = make_scan(alloc, left)?;
    let join = make_join_if(alloc, join)?;
    let sink = make_sink(alloc, sink, out)?;
    Ok((Query::new(left, join, group, sink)?, options))
}

/// The sink of this name.
fn make_sink(alloc: Global, format: SinkFormat, out: &str) -> Result<SinkSpec, Fault>
    ensures ok { IfOk result (λ sink. sink ≡ record { name = out.now; format = format }) }
    ensures out_of_memory { IsOkUnless result Fault.OutOfMemory }
{
    Ok(SinkSpec {
        name: Name::new(alloc, out)?,
        format,
    })
}

/// The scan of these parts, whose schema has no name twice.
fn make_scan(alloc: Global, parts: ScanParts) -> Result<ScanSpec, Fault>
    ensures ok { IfOk result (λ spec. scan_written (file_scan spec) ≡ scan_of_parts parts) }
    ensures refused { Refuses (fault_of_repeat (repeat_of_format (scan_of_parts parts).format)) result }
{
    let ScanParts {
        files,
        fields,
        options,
        asked,
        filter,
    } = parts;
    let schema = Schema::new(alloc, fields)?;
    Ok(ScanSpec {
        sources: files,
        format: ScanFormat::Csv { schema, options },
        file_options: asked,
        filter,
    })
}

/// The join of these parts, whose right schema has no name twice.
fn make_join(alloc: Global, parts: JoinParts) -> Result<JoinSpec, Fault>
    ensures ok { IfOk result (λ spec. join_written (join_part spec) ≡ join_of_parts parts) }
    ensures refused { Refuses (fault_of_repeat (repeat_of_format (scan_of_parts parts.right).format)) result }
{
    let JoinParts {
        right,
        left_keys,
        right_keys,
        args,
        how,
    } = parts;
    let right = make_scan(alloc, right)?;
    Ok(JoinSpec {
        right,
        left_keys,
        right_keys,
        args,
        how,
    })
}

/// The same, where there is a join.
fn make_join_if(alloc: Global, parts: Option<JoinParts>) -> Result<Option<JoinSpec>, Fault>
    ensures ok { IfOk result (λ spec. option_map join_written (option_map join_part spec) ≡ option_map join_of_parts parts) }
    ensures refused { Refuses (fault_of_repeat (repeat_of_scans (right_scans (option_map join_of_parts parts)))) result }
{
    match parts {
        Some(parts) => Ok(Some(make_join(alloc, parts)?)),
        None => Ok(None),
    }
}

/// The predicate of a tree, where there is one.
#[tactic(auto, using(crate::proofs::LevelLemmas::levels_of_tree))]
fn pred_if(node: Option<PredNode>) -> Result<Option<Pred>, Fault>
    ensures ok { IfOk result (λ value. (value ≡ node) × (IsTooDeep (option_map pred_tree node) → ⊥)) }
    ensures refused { IfErr result (λ fault. (fault ≡ Fault.InvalidQuery Why.PredDepth) × IsTooDeep (option_map pred_tree node)) }
{
    match node {
        Some(node) => Ok(Some(Pred::new(node)?)),
        None => Ok(None),
    }
}

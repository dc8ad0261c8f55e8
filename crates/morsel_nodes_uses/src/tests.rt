//! What the source and the sink of a scan are called, which ends they have, and how the states of their ports move.
ghost use Rattle.std.specs.Prelude.{◌≡◌, None};

use morsel_frame::Schema;
use morsel_grammar::CsvOptions;
use morsel_load::{Load, LoadJob};
use morsel_meaning::{ColType, Field, Name};
use morsel_nodes::{CsvSourceMakers, LoadMakers, MakerNode, NDJsonSinkMakers};
use morsel_outside::MemIo;
use morsel_ports::{ComputeNode, PortKind, PortState};
use morsel_prims::{Lanes, PlainGroup, PlainLanes, PlainToken, Tokens};
use morsel_scan::{CsvSourceNode, FileScanOptions};
use morsel_scan_units::LaneJob;
use morsel_sink::NDJsonSinkNode;
use std::alloc::Global;
use std::process::Abort;
use std::sync::Arc;

/// What the lanes of a scan over files in memory are for.
type Job = LaneJob<PlainGroup, MemIo>;

/// Those lanes, on one thread.
type Plain = PlainLanes<Load<PlainToken, Job>>;

fn name_of(rt: &impl Abort, alloc: Global, text: &str) -> Name {
    Name::new(alloc, text).expect(rt, "memory")
}

/// One column of numbers.
fn schema_of(rt: &impl Abort, alloc: Global) -> Schema {
    let field = Field {
        name: name_of(rt, alloc, "id"),
        kind: ColType::Int,
    };
    let fields = vec![in alloc; field].expect(rt, "memory");
    Schema::new(alloc, fields).expect(rt, "distinct names")
}

/// The source of a scan of files with one column.
fn source_of(rt: &impl Abort, alloc: Global) -> MakerNode<CsvSourceMakers>
    ensures { result.pipelines ≡ None }
{
    let null = name_of(rt, alloc, "");
    let options = CsvOptions::new(b',', Some(b'"'), b'\n', None, true, null, false).expect(
        rt, "options",
    );
    let asked = FileScanOptions {
        slice: None,
        columns: Vec::new(alloc),
        row_index: None,
        path: None,
        allow_missing_columns: false,
    };
    let node = CsvSourceNode::new(alloc, schema_of(rt, alloc), options, asked, None).expect(
        rt, "a scan",
    );
    MakerNode::new(CsvSourceMakers::new(Arc::new(alloc, node).expect(rt, "memory")))
}

/// The sink of such rows.
fn sink_of(rt: &impl Abort, alloc: Global) -> MakerNode<NDJsonSinkMakers>
    ensures { result.pipelines ≡ None }
{
    let node = NDJsonSinkNode::new(schema_of(rt, alloc)).expect(rt, "memory");
    MakerNode::new(NDJsonSinkMakers::new(Arc::new(alloc, node).expect(rt, "memory")))
}

/// What the receiving and the sending port of a node are told, and what they answer.
type Told = ([PortState; 2], [PortState; 2]);

/// A new node is called so, keeps nothing in memory before it gives, has an end for each pipeline on both sides, and its ports answer
/// so, one time after the other.
fn behaves<L, J, W>(rt: &impl Abort, mut node: MakerNode<W>, name: &str, times: &[Told])
where
    L: Tokens + Lanes<Load<<L as Tokens>::Token, J>>,
    J: LoadJob<<L as Tokens>::Token>,
    W: LoadMakers<<L as Tokens>::Token, J> + Drop,
    requires is_new { node.pipelines ≡ None }
{
    <MakerNode<W> as ComputeNode<L, J>>::initialize(&mut node, 2);
    assert_eq!(rt; <MakerNode<W> as ComputeNode<L, J>>::name(&node), name);
    assert!(rt; !<MakerNode<W> as ComputeNode<L, J>>::is_memory_intensive_pipeline_blocker(&node));
    assert_eq!(rt;
        <MakerNode<W> as ComputeNode<L, J>>::recv_kind(&node, 0),
        PortKind::Parallel
    );
    assert_eq!(rt;
        <MakerNode<W> as ComputeNode<L, J>>::send_kind(&node, 0),
        PortKind::Parallel
    );
    'times: for (told, wanted) in times {
        let mut recv = [told[0]];
        let mut send = [told[1]];
        <MakerNode<W> as ComputeNode<L, J>>::update_state(&mut node, &mut recv, &mut send).expect(
            rt, "memory",
        );
        assert_eq!(rt; [recv[0], send[0]], *wanted);
    }
}

#[test]
fn a_source_goes_on_until_all_is_fed_or_nobody_takes_its_rows(rt: HostRuntime) {
    use PortState::{Blocked, Done, Ready};
    let fed = [
        ([Ready, Ready], [Ready, Ready]),
        ([Ready, Blocked], [Ready, Ready]),
        ([Done, Ready], [Done, Done]),
        ([Ready, Ready], [Done, Done]),
    ];
    let source = source_of(&rt, rt.alloc());
    behaves::<Plain, Job, CsvSourceMakers>(&rt, source, "csv_source", &fed);
    let left = [([Ready, Done], [Done, Done])];
    let source = source_of(&rt, rt.alloc());
    behaves::<Plain, Job, CsvSourceMakers>(&rt, source, "csv_source", &left);
}

#[test]
fn a_sink_tells_on_what_it_is_told(rt: HostRuntime) {
    use PortState::{Blocked, Done, Ready};
    let told = [
        ([Ready, Ready], [Ready, Ready]),
        ([Blocked, Ready], [Ready, Blocked]),
        ([Ready, Done], [Ready, Ready]),
        ([Done, Ready], [Done, Done]),
    ];
    let sink = sink_of(&rt, rt.alloc());
    behaves::<Plain, Job, NDJsonSinkMakers>(&rt, sink, "ndjson_sink", &told);
}

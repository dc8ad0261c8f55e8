//! Words of the command line: scans of one file, and words that are no command.
use super::{End, LOCAL, Run, ends, files_of, outside_of, prints, status_after, words_of};
use morsel_outside::{Io, OpenGate, SureMemIo};
use morsel_prog::{local_main, morsel_main};
use std::alloc::Global;
use std::mem::drop;
use std::process::Abort;

/// A scan of a file of two rows into the sink `o`.
pub const SCAN: Run<'static> = Run {
    line: "scan one.csv id:int,name:text o",
    ..LOCAL
};

/// The bytes of the file.
pub const ROWS: &[u8] = b"id,name\n1,ann\n2,\n";

/// The text of its rows.
pub const SCANNED_TEXT: &str = "{\"id\":1,\"name\":\"ann\"}\n{\"id\":2,\"name\":null}\n";

/// How the scan ends.
pub const SCANNED: End<'static> = End {
    status: 0,
    told: "2",
    text: Some(SCANNED_TEXT),
};

#[test]
fn a_file_is_scanned(rt: HostRuntime) {
    ends(&rt, rt.alloc(), SCAN, ROWS, b"", SCANNED);
}

#[test]
fn morsel_main_answers_as_local_main_does(rt: HostRuntime) {
    let words = words_of(&rt, rt.alloc(), SCAN.line);
    let mut io = outside_of(&rt, rt.alloc(), SCAN, ROWS, b"");
    let status = morsel_main(&rt, rt.alloc(), words.as_slice(), &mut io, &OpenGate);
    drop(words);
    assert_eq!(rt; status, 0);
    prints(&rt, &io, Some("2"));
    drop(io);
}

#[test]
fn an_absent_file_is_a_read_fault(rt: HostRuntime) {
    let run = Run {
        line: "scan two.csv id:int,name:text o",
        ..SCAN
    };
    let end = End {
        status: 12,
        told: "error 2: read fault in file 0",
        text: None,
    };
    ends(&rt, rt.alloc(), run, ROWS, b"", end);
}

#[test]
fn an_absent_file_of_an_outside_that_never_fails_is_empty(rt: HostRuntime) {
    let mut io = SureMemIo::new(rt.alloc(), files_of(&rt, rt.alloc(), SCAN, ROWS, b""));
    let status = status_after(&rt, rt.alloc(), "scan two.csv id:int,name:text o", &mut io);
    assert_eq!(rt; status, 0);
    assert_eq!(rt; io.memory().lines(), 1);
    assert_eq!(rt; io.memory().line(0), "0");
    drop(io);
}

/// Lines whose words are no command.
const NO_COMMANDS: &[&str] = &[
    "scan a",
    "",
    "scan",
    "local",
    "local q",
    "local q o more",
    "local  q o",
    "scan a.csv id:int o more",
    "scan a.csv id o",
    "scan a.csv :int o",
    "scan a.csv id:int,id:text o",
    "scan a.csv i:d:int o",
    "scan a.csv id:float o",
    "scan a.csv id:int, o",
    "scan a.csv  o",
    "run q o",
    "make 1 o",
    "Local q o",
];

/// These words are no command, and touch nothing, where their fault can be told and where it cannot.
fn is_no_command(rt: &impl Abort, alloc: Global, words: &[String]) {
    let told = Some("error 12: usage");
    touches_nothing(rt, alloc, words, LOCAL, told);
    let run = Run {
        fail_writes: &[(0, 0)],
        ..LOCAL
    };
    touches_nothing(rt, alloc, words, run, None);
}

fn touches_nothing(
    rt: &impl Abort,
    alloc: Global,
    words: &[String],
    run: Run<'_>,
    told: Option<&str>,
) {
    let mut io = outside_of(rt, alloc, run, ROWS, b"");
    assert_eq!(rt; local_main(alloc, words, &mut io), 22);
    assert_eq!(rt; io.memory().names(), 0);
    prints(rt, &io, told);
    drop(io);
}

fn line_is_no_command(rt: &impl Abort, alloc: Global, line: &str) {
    let words = words_of(rt, alloc, line);
    is_no_command(rt, alloc, words.as_slice());
    drop(words);
}

#[test]
fn words_that_are_no_command_are_refused(rt: HostRuntime) {
    is_no_command(&rt, rt.alloc(), &[]);
    for line in NO_COMMANDS {
        line_is_no_command(&rt, rt.alloc(), line);
    }
}

#[test]
fn a_file_cannot_be_scanned_into_itself(rt: HostRuntime) {
    let run = Run {
        line: "scan one.csv id:int,name:text one.csv",
        ..SCAN
    };
    let end = End {
        status: 14,
        told: "error 4: invalid query: sink is source",
        text: None,
    };
    ends(&rt, rt.alloc(), run, ROWS, b"", end);
}

/// The words of a scan under 65535 columns, without the sink.
fn most_columns(rt: &impl Abort, alloc: Global) -> String {
    let mut line = String::from_str(alloc, "scan one.csv c:int").expect(rt, "memory");
    for column in 1..65535 {
        let more = format!(in alloc; ",c{column}:int").expect(rt, "memory");
        line.push_str(more.as_str()).expect(rt, "memory");
        drop(more);
    }
    line
}

/// A scan of an empty file, whose words begin and end so.
fn scan_of_nothing(rt: &impl Abort, alloc: Global, front: &str, back: &str, end: End<'_>) {
    let line = format!(in alloc; "{front}{back}").expect(rt, "memory");
    let run = Run {
        line: line.as_str(),
        ..LOCAL
    };
    ends(rt, alloc, run, b"", b"", end);
    drop(line);
}

#[test]
fn a_schema_has_at_most_65535_columns(rt: HostRuntime) {
    let line = most_columns(&rt, rt.alloc());
    let most = End {
        status: 0,
        told: "0",
        text: Some(""),
    };
    scan_of_nothing(&rt, rt.alloc(), line.as_str(), " o", most);
    let more = End {
        status: 14,
        told: "error 4: invalid query: no column",
        text: None,
    };
    scan_of_nothing(&rt, rt.alloc(), line.as_str(), ",d:int o", more);
    drop(line);
}

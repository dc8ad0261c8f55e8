//! The calls on real files.
//!
//! A helper says `expect` where the system could refuse it, and gives what it makes to `drop`, as those of the main calls do.
ghost use Rattle.std.specs.Prelude.{◌≡◌, ◌<◌, ◌≤◌, length, slice_index, IfSome};

use super::*;
use std::alloc::Alloc;
use std::mem::drop;
use std::os::unix::fs::symlink;
use std::process::Abort;
use std::{env, fs, process};

/// The path of a file of this name, which no other process makes.
fn path_of(rt: &HostRuntime, name: &str) -> Option<String> {
    let file = format!(in rt.alloc(); "morsel-{}-{name}", process::id(rt.process())).ok()?;
    let path = env::temp_dir(rt)
        .ok()?
        .join(rt.alloc(), file.as_str())
        .ok()?;
    String::from_str(rt.alloc(), path.as_path().as_str()).ok()
}

fn write(rt: &(impl Abort + Files), name: &str, text: &str) {
    fs::write(rt, name, text).expect(rt, "the file is written");
}

fn has_text(rt: &(impl Abort + Files + Alloc), name: &str, text: &str) {
    let found = fs::read_to_string(rt, name).expect(rt, "the file is read");
    assert_eq!(rt; found.as_str(), text);
    drop(found);
}

fn remove(rt: &(impl Abort + Files), name: &str) {
    fs::remove_file(rt, name).expect(rt, "the file is removed");
}

/// Removes the file of this path.
fn let_go(rt: &(impl Abort + Files), path: String) {
    remove(rt, path.as_str());
    drop(path);
}

/// Opens the file, which gets this number and has this size.
fn opens<H: Io>(rt: &impl Abort, io: &mut H, name: &str, number: usize, size: u64) {
    let file = io.open_source(name).expect(rt, "the file is opened");
    assert_eq!(rt; (file.0, io.size(file)), (number, size));
}

/// The last failure ended with these words of the system.
fn says(rt: &impl Abort, io: &RealIo<'_, HostRuntime>, end: &str) {
    let reason = io.reason().expect(rt, "a reason");
    assert!(rt; reason.ends_with(end), "{reason}");
}

/// The file is no source, since the system says this of it.
fn refuses(rt: &impl Abort, io: &mut RealIo<'_, HostRuntime>, name: &str, end: &str) {
    assert_eq!(rt; io.open_source(name), Err(IoErr::Failed));
    says(rt, io, end);
}

/// Opens a file of five bytes, the only one.
fn opened<H: Io>(rt: &impl Abort, io: &mut H, name: &str) -> FileNo
    ensures opened { result.0 < length (H.seen io.new).sizes }
    ensures size { slice_index (H.seen io.new).sizes result.0 ≡ 5 }
{
    let file = io.open_source(name).expect(rt, "the file is opened");
    assert_eq!(rt; io.size(file), 5);
    file
}

/// The last three bytes of a file of five.
#[tactic(auto, using(morsel_outside::proofs::TransferLemmas::reads_open_nothing))]
fn end_of(io: &mut RealIo<'_, HostRuntime>, file: FileNo) -> Result<[u8; 3], IoErr>
    requires opened { file.0 < length io.old.sizes }
    requires size { slice_index io.old.sizes file.0 ≡ 5 }
    ensures same { io.new.sizes ≡ io.old.sizes }
{
    let mut into = [0; 3];
    match io.read_range(file, 2, &mut into) {
        Ok(()) => Ok(into),
        Err(error) => Err(error),
    }
}

#[test]
fn a_range_of_a_file_is_read(rt: HostRuntime) {
    let from = path_of(&rt, "read.csv").expect(&rt, "the path");
    write(&rt, from.as_str(), "id\n1\n");
    let mut io = RealIo::new(&rt, rt.alloc());
    let file = opened(&rt, &mut io, from.as_str());
    assert_eq!(rt; end_of(&mut io, file), Ok(*b"\n1\n"));
    assert_eq!(rt; io.reason(), None);
    drop(io);
    let_go(&rt, from);
}

/// Makes a sink and writes two pieces into it.
fn writes<H: Io>(rt: &impl Abort, io: &mut H, name: &str) {
    io.make_sink(name).expect(rt, "the sink is made");
    io.write(b"{\"id\":1}").expect(rt, "the piece is written");
    io.write(b"\n").expect(rt, "the piece is written");
    io.print("1").expect(rt, "the line is printed");
}

#[test]
fn a_sink_has_what_is_written_and_no_more(rt: HostRuntime) {
    let to = path_of(&rt, "written").expect(&rt, "the path");
    write(&rt, to.as_str(), "what was here before");
    let mut io = RealIo::new(&rt, rt.alloc());
    writes(&rt, &mut io, to.as_str());
    has_text(&rt, to.as_str(), "{\"id\":1}\n");
    opens(&rt, &mut io, to.as_str(), 0, 9);
    assert_eq!(rt; io.reason(), None);
    drop(io);
    let_go(&rt, to);
}

#[test]
fn what_is_no_regular_file_is_no_source(rt: HostRuntime) {
    let mut io = RealIo::new(&rt, rt.alloc());
    let absent = "no-such-file.csv: No such file or directory (os error 2)";
    refuses(&rt, &mut io, "no-such-file.csv", absent);
    refuses(&rt, &mut io, "/", "/: not a regular file");
    refuses(
        &rt,
        &mut io,
        "/proc/version",
        "/proc/version: not a regular file",
    );
    assert_eq!(rt; (io.read_faults, io.write_faults, io.failed), (3, 0, 0));
    drop(io);
}

#[test]
fn an_empty_file_is_opened(rt: HostRuntime) {
    let from = path_of(&rt, "empty.csv").expect(&rt, "the path");
    write(&rt, from.as_str(), "");
    let mut io = RealIo::new(&rt, rt.alloc());
    opens(&rt, &mut io, from.as_str(), 0, 0);
    drop(io);
    let_go(&rt, from);
}

/// Opens the source, which is then no sink under either name.
fn is_no_sink(rt: &impl Abort, io: &mut RealIo<'_, HostRuntime>, name: &str, other: &str) {
    io.open_source(name).expect(rt, "the file is opened");
    assert_eq!(rt; io.make_sink(name), Err(IoErr::Failed));
    assert_eq!(rt; io.make_sink(other), Err(IoErr::Failed));
    assert_eq!(rt;
        (io.read_faults, io.write_faults, io.sinks.len()),
        (0, 2, 0)
    );
}

#[test]
fn a_source_is_no_sink_under_a_symbolic_link(rt: HostRuntime) {
    let from = path_of(&rt, "source.csv").expect(&rt, "the path");
    write(&rt, from.as_str(), "id\n1\n");
    let link = path_of(&rt, "symbolic.csv").expect(&rt, "the path");
    symlink(&rt, from.as_str(), link.as_str()).expect(&rt, "the link is made");
    let mut io = RealIo::new(&rt, rt.alloc());
    is_no_sink(&rt, &mut io, link.as_str(), from.as_str());
    drop(io);
    has_text(&rt, from.as_str(), "id\n1\n");
    let_go(&rt, link);
    let_go(&rt, from);
}

#[test]
fn a_source_is_no_sink_under_another_name(rt: HostRuntime) {
    let from = path_of(&rt, "kept.csv").expect(&rt, "the path");
    write(&rt, from.as_str(), "id\n1\n");
    let link = path_of(&rt, "link.csv").expect(&rt, "the path");
    fs::hard_link(&rt, from.as_str(), link.as_str()).expect(&rt, "the link is made");
    let mut io = RealIo::new(&rt, rt.alloc());
    is_no_sink(&rt, &mut io, from.as_str(), link.as_str());
    drop(io);
    has_text(&rt, from.as_str(), "id\n1\n");
    let_go(&rt, link);
    let_go(&rt, from);
}

#[test]
fn a_file_that_became_shorter_cannot_be_read(rt: HostRuntime) {
    let from = path_of(&rt, "shorter.csv").expect(&rt, "the path");
    write(&rt, from.as_str(), "id\n1\n");
    let mut io = RealIo::new(&rt, rt.alloc());
    let file = opened(&rt, &mut io, from.as_str());
    write(&rt, from.as_str(), "id");
    assert_eq!(rt; end_of(&mut io, file), Err(IoErr::Failed));
    assert_eq!(rt; (io.read_faults, io.write_faults, io.failed), (1, 0, 0));
    drop(io);
    let_go(&rt, from);
}

#[test]
fn a_replaced_file_is_read_through_its_descriptor(rt: HostRuntime) {
    let from = path_of(&rt, "replaced.csv").expect(&rt, "the path");
    write(&rt, from.as_str(), "id\n1\n");
    let new = path_of(&rt, "replacing.csv").expect(&rt, "the path");
    write(&rt, new.as_str(), "id\n2\n3\n");
    let mut io = RealIo::new(&rt, rt.alloc());
    let file = opened(&rt, &mut io, from.as_str());
    fs::rename(&rt, new.as_str(), from.as_str()).expect(&rt, "the file is renamed");
    assert_eq!(rt; end_of(&mut io, file), Ok(*b"\n1\n"));
    drop(io);
    let_go(&rt, from);
    drop(new);
}

/// Opens a file of five bytes, and lets its descriptor go.
fn opened_without_descriptor(
    rt: &impl Abort,
    io: &mut RealIo<'_, HostRuntime>,
    name: &str,
) -> FileNo
    ensures opened { result.0 < length io.new.sizes }
    ensures size { slice_index io.new.sizes result.0 ≡ 5 }
{
    let file = opened(rt, io, name);
    assert!(rt; io.kept.pop().is_some());
    file
}

#[test]
fn a_file_without_a_descriptor_is_opened_anew(rt: HostRuntime) {
    let from = path_of(&rt, "anew.csv").expect(&rt, "the path");
    write(&rt, from.as_str(), "id\n1\n");
    let mut io = RealIo::new(&rt, rt.alloc());
    let file = opened_without_descriptor(&rt, &mut io, from.as_str());
    assert_eq!(rt; end_of(&mut io, file), Ok(*b"\n1\n"));
    drop(io);
    let_go(&rt, from);
}

/// The file can't be read, since the system says this of it.
fn cannot_be_read(rt: &impl Abort, io: &mut RealIo<'_, HostRuntime>, file: FileNo, end: &str)
    requires opened { file.0 < length io.old.sizes }
    requires size { slice_index io.old.sizes file.0 ≡ 5 }
    ensures same { io.new.sizes ≡ io.old.sizes }
{
    assert_eq!(rt; end_of(io, file), Err(IoErr::Failed));
    says(rt, io, end);
}

/// A file that is no longer as it was opened, or is another one, or is gone, can't be read.
fn must_be_the_same(
    rt: &(impl Abort + Files),
    io: &mut RealIo<'_, HostRuntime>,
    file: FileNo,
    name: &str,
)
    requires opened { file.0 < length io.old.sizes }
    requires size { slice_index io.old.sizes file.0 ≡ 5 }
{
    write(rt, name, "id\n2\n");
    let changed = "same.csv: the file was replaced or changed after it was opened";
    cannot_be_read(rt, io, file, changed);
    remove(rt, name);
    symlink(rt, "/dev/null", name).expect(rt, "the link is made");
    cannot_be_read(rt, io, file, "same.csv: not a regular file");
    remove(rt, name);
    let absent = "same.csv: No such file or directory (os error 2)";
    cannot_be_read(rt, io, file, absent);
}

#[test]
fn a_file_that_is_opened_anew_is_the_same_one(rt: HostRuntime) {
    let from = path_of(&rt, "same.csv").expect(&rt, "the path");
    write(&rt, from.as_str(), "id\n1\n");
    let mut io = RealIo::new(&rt, rt.alloc());
    let file = opened_without_descriptor(&rt, &mut io, from.as_str());
    must_be_the_same(&rt, &mut io, file, from.as_str());
    assert_eq!(rt; (io.read_faults, io.failed), (3, 0));
    drop(io);
    drop(from);
}

/// Opens the file as often as descriptors are kept.
fn open_to_the_limit<H: Io>(rt: &impl Abort, io: &mut H, name: &str) {
    for _ in 0..KEPT_LIMIT {
        io.open_source(name).expect(rt, "the file is opened");
    }
}

#[test]
fn the_files_past_the_limit_have_no_descriptor(rt: HostRuntime) {
    let from = path_of(&rt, "many.csv").expect(&rt, "the path");
    write(&rt, from.as_str(), "id\n1\n");
    let mut io = RealIo::new(&rt, rt.alloc());
    open_to_the_limit(&rt, &mut io, from.as_str());
    let last = opened(&rt, &mut io, from.as_str());
    assert_eq!(rt; (io.kept.len(), last.0), (256, 256));
    assert_eq!(rt; end_of(&mut io, last), Ok(*b"\n1\n"));
    drop(io);
    let_go(&rt, from);
}

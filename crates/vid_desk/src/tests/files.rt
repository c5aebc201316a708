use super::{contents, holds};
use crate::*;
use std::alloc::Global;
use std::os::unix::fs::symlink;
use std::process::Abort;
use std::{env, fs, io};

// Goes to a new folder, since tests may share one. In it are two inputs and what an output is to replace, a folder, two
// more names of the first input, and a link that leads nowhere.
fn prepare(rt: &HostRuntime, place: &str) -> io::Result<()> {
    fs::create_dir(rt, place)?;
    env::set_current_dir(rt, place)?;
    fs::write(rt, "first", b"abcdef")?;
    fs::write(rt, "second", b"0123456789")?;
    fs::write(rt, "made", b"what was there before, and is longer")?;
    fs::create_dir(rt, "folder")?;
    symlink(rt, "first", "soft")?;
    fs::hard_link(rt, "first", "hard")?;
    symlink(rt, "loop", "loop")
}

// What a name leads to: its bytes, or a word where there are none.
fn shown(rt: &impl Abort, alloc: Global, desk: &mut FileDesk<HostRuntime>, name: &str) -> Vec<u8> {
    match contents(desk, alloc, name) {
        Ok(Some(bytes)) => bytes,
        Ok(None) => b"missing".to_vec(alloc).expect(rt, "no memory"),
        Err(DeskFault::Failed) => b"failed".to_vec(alloc).expect(rt, "no memory"),
        Err(DeskFault::NoMem) => panic!(rt; "no memory"),
    }
}

// Only a regular file is an input. Where a folder of the path is a file, no file has that name.
const INPUTS: [(&str, &[u8]); 10] = [
    ("first", b"abcdef"),
    ("second", b"0123456789"),
    ("soft", b"abcdef"),
    ("first", b"abcdef"),
    ("nowhere", b"missing"),
    ("nowhere/below", b"missing"),
    ("first/below", b"missing"),
    ("folder", b"failed"),
    ("loop", b"failed"),
    ("/dev/null", b"failed"),
];

// Parts of the second input.
fn parts_are_read(rt: &impl Abort, desk: &mut FileDesk<HostRuntime>) {
    let found = desk.find("second").expect(rt, "a file is not looked for");
    let second = found.expect(rt, "a file that is there was not found");
    let mut part = [0; 3];
    assert!(rt; desk.read_at(second, 7, &mut part).is_ok());
    assert!(rt; part == *b"789");
    assert!(rt; desk.read_at(second, 8, &mut part).is_err());
    assert!(rt; desk.read_at(second, 10, &mut []).is_ok());
    assert!(rt; desk.read_at(second, 11, &mut []).is_err());
}

#[test]
fn an_input_is_the_regular_file_of_its_name(rt: HostRuntime) {
    prepare(&rt, "inputs").expect(&rt, "no folder");
    let mut desk = FileDesk::new(rt, rt.alloc());
    for &(name, bytes) in &INPUTS {
        let found = shown(&rt, rt.alloc(), &mut desk, name);
        holds(&rt, found.as_slice() == bytes, &name);
    }
    parts_are_read(&rt, &mut desk);
}

// Names of inputs, and names under which nothing can be made.
const REFUSED: [&str; 7] = [
    "first",
    "./first",
    "soft",
    "hard",
    "second",
    "folder",
    "nowhere/made",
];

// Nothing is made under the names that are refused, where the inputs were found.
fn are_refused(rt: &impl Abort, desk: &mut FileDesk<HostRuntime>) {
    assert!(rt; desk.find("first").is_ok());
    assert!(rt; desk.find("second").is_ok());
    for name in &REFUSED {
        holds(rt, desk.create(name) == Err(DeskFault::Failed), name);
    }
}

// Two outputs are made, and grow until they are closed.
fn are_written(rt: &impl Abort, desk: &mut FileDesk<HostRuntime>) {
    let made = desk.create("made").expect(rt, "no output");
    let next = desk.create("next").expect(rt, "no output");
    assert!(rt; made == 0 && next == 1);
    assert!(rt; desk.append(made, b"xyz").is_ok());
    assert!(rt; desk.append(next, b"12").is_ok());
    assert!(rt; desk.append(made, b"!").is_ok());
    assert!(rt; desk.close_outputs().is_ok());
    assert!(rt; desk.append(made, b"?") == Err(DeskFault::Failed));
}

#[test]
fn an_output_replaces_what_is_no_input(rt: HostRuntime) {
    prepare(&rt, "outputs").expect(&rt, "no folder");
    let mut desk = FileDesk::new(rt, rt.alloc());
    are_refused(&rt, &mut desk);
    are_written(&rt, &mut desk);
    for &(name, bytes) in &WRITTEN {
        let held = fs::read(&rt, name).expect(&rt, "no file");
        holds(&rt, held.as_slice() == bytes, &name);
    }
}

// What the files hold behind it.
const WRITTEN: [(&str, &[u8]); 4] = [
    ("first", b"abcdef"),
    ("second", b"0123456789"),
    ("made", b"xyz!"),
    ("next", b"12"),
];

// The system syncs no file of its own making, so closing such an output fails; a device is not synced.
const CLOSED: [(&str, Result<(), Failed>); 2] = [
    ("/dev/null", Ok(())),
    ("/proc/self/comm", Err(Failed)),
];

// What closing a desk answers that has an output before the one of a name.
fn closing(rt: &impl Abort, desk: &mut FileDesk<HostRuntime>, name: &str) -> Result<(), Failed> {
    assert!(rt; desk.create("before").is_ok());
    let out = desk.create(name).expect(rt, "no output");
    assert!(rt; desk.append(out, b"piece").is_ok());
    assert!(rt; desk.say(b"said by a desk of files\n").is_ok());
    desk.close_outputs()
}

#[test]
fn closing_fails_where_a_regular_file_is_not_synced(rt: HostRuntime) {
    for &(name, closed) in &CLOSED {
        let mut desk = FileDesk::new(rt, rt.alloc());
        let answer = closing(&rt, &mut desk, name);
        holds(&rt, answer == closed, &name);
    }
}

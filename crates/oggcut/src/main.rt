//! The program: it hands the words of the command line and the files of the system to the top call.
#![tactic(auto)]

ghost use Rattle.std.specs.Prelude.{◌≡◌, ◌≢◌};
ghost use Rattle.vid_desk.specs.Meaning.{Rose};

use cut_app::{Status, oggcut};
use cut_report::fault_line;
use std::env;
use std::io::ErrorKind;
use std::process::ExitCode;
use vid_desk::{Desk, FileDesk};

/// Ends with the number of the status: 2 also where a word is no text, and 10 where no memory is found for the words.
fn main(rt: HostRuntime) -> ExitCode {
    let alloc = rt.alloc();
    let args = match env::args(&rt) {
        Ok(args) => args,
        Err(e) if e.kind() == ErrorKind::OutOfMemory => return ExitCode::from(
            Status::NoMem.number(),
        ),
        Err(_) => return ExitCode::from(Status::Usage.number()),
    };
    let mut texts: Vec<String> = Vec::new(alloc);
    for text in args.skip(1) {
        if texts.push(text).is_err() {
            return ExitCode::from(Status::NoMem.number());
        }
    }
    let mut words: Vec<&str> = Vec::new(alloc);
    for text in &texts {
        if words.push(text.as_str()).is_err() {
            return ExitCode::from(Status::NoMem.number());
        }
    }
    let mut desk = FileDesk::new(rt, alloc);
    let status = oggcut(alloc, &words, &mut desk);
    ExitCode::from(close(&mut desk, status).number())
}

/// The status once the outputs are closed: Done only where that came to no fault. Else its line is said, and where that
/// fails too the status says it all the same.
fn close(desk: &mut FileDesk<HostRuntime>, status: Status) -> Status
    ensures refused { status ≢ Status.Done → result ≡ status }
    ensures done { result ≡ Status.Done → desk.new.write_faults ≡ desk.old.write_faults }
    ensures cause { result ≡ Status.WriteFault → status ≢ Status.WriteFault → Rose desk.old.write_faults desk.new.write_faults }
{
    if status != Status::Done || desk.close_outputs().is_ok() {
        return status;
    }
    let _ = desk.say(&fault_line(&Status::WriteFault));
    Status::WriteFault
}

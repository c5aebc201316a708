// The line of a status (own).
ghost use Rattle.std.specs.Prelude.{◌≡◌, ◌≤◌, length};
ghost use Rattle.cut_report.specs.Lines.{byte_text, fault_text, source_text};

use crate::line::Part::{Number, Text};
use crate::line::line;
use crate::{SourceWhat, Status};
use arrayvec::ArrayVec;

// The line of a fault of that name at that byte of a source.
#[tactic(auto, unfolding(crate::specs::Lines::byte_text))]
fn byte_line(source: u32, at: u64, name: &str) -> ArrayVec<u8, 128>
    requires { length name.now ≤ 16 }
    ensures { result.items ≡ byte_text source at name.now }
{
    line(&[
        Text("fault 4 source "),
        Number(source.into()),
        Text(" byte "),
        Number(at),
        Text(" "),
        Text(name),
    ])
}

// The line of a bad source.
#[tactic(auto, unfolding(crate::specs::Lines::source_text))]
fn source_line(source: u32, what: &SourceWhat) -> ArrayVec<u8, 128>
    ensures { result.items ≡ source_text source what.now }
{
    match *what {
        SourceWhat::Packet {
            link,
            packet,
            fault,
        } => line(&[
            Text("fault 4 source "),
            Number(source.into()),
            Text(" link "),
            Number(link.into()),
            Text(" packet "),
            Number(packet.into()),
            Text(" "),
            Text(fault.name()),
        ]),
        SourceWhat::Page { at, fault } => byte_line(source, at, fault.name()),
        SourceWhat::Link { at, fault } => byte_line(source, at, fault.name()),
    }
}

/// The line of a status with its line feed; empty where all was done. It takes no memory.
#[tactic(auto, unfolding(crate::specs::Lines::fault_text))]
pub fn fault_line(status: &Status) -> ArrayVec<u8, 128>
    ensures text { result.items ≡ fault_text status.now }
{
    match *status {
        Status::Done => ArrayVec::new(),
        Status::Usage => line(&[Text("fault 2 usage")]),
        Status::NoFile { input } => line(&[
            Text("fault 3 input "),
            Number(input.into()),
            Text(" missing"),
        ]),
        Status::BadSource { source, what } => source_line(source, &what),
        Status::BadList { line: n, why } => line(&[
            Text("fault 5 line "),
            Number(n.into()),
            Text(" "),
            Text(why.name()),
        ]),
        Status::Range { line: n } => line(&[Text("fault 6 line "), Number(n.into())]),
        Status::ReadFault => line(&[Text("fault 8 read")]),
        Status::WriteFault => line(&[Text("fault 9 write")]),
        Status::NoMem => line(&[Text("fault 10 memory")]),
        Status::BadY4m {
            frame,
            why: departure,
        } => line(&[
            Text("fault 11 frame "),
            Number(frame.into()),
            Text(" "),
            Text(departure.name()),
        ]),
        Status::TooLong { input, bytes } => line(&[
            Text("fault 14 input "),
            Number(input.into()),
            Text(" bytes "),
            Number(bytes),
        ]),
        Status::SameName => line(&[Text("fault 15 name")]),
        Status::Changed => line(&[Text("fault 16 changed")]),
        Status::InPointNotKey => line(&[Text("fault 18 key")]),
        Status::NotYet => line(&[Text("fault 19 form")]),
    }
}

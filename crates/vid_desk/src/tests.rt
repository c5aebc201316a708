ghost use Rattle.std.specs.Prelude.{◌≡◌, ◌<◌, ◌≤◌, ◌++◌, length, IfOk, OnOk, IsErrOf};
ghost use Rattle.std.specs.Option.{option_map};
ghost use Rattle.vid_desk.specs.declared.tests.Halt.TheVariants.{Read};
ghost use Rattle.vid_desk.specs.Meaning.{Appended, Causes, Grown, HasCause, ToldFiles, bytes_at, place_of};

use crate::*;
use std::alloc::Global;
use std::fmt::Debug;
use std::process::Abort;

mod files;

// A caller of any desk: the bytes of the first input of a name.
fn contents<D: Desk>(desk: &mut D, alloc: Global, name: &str) -> Result<Option<Vec<u8>>, DeskFault>
    ensures value { IfOk result (λ found. ToldFiles (D.sees desk.old) (λ files.
        option_map (λ bytes. bytes.items) found ≡ option_map (λ id. bytes_at files id) (place_of files name.now))) }
    ensures inputs { (D.sees desk.new).inputs ≡ (D.sees desk.old).inputs }
    ensures cause { HasCause (D.sees desk.old).read_faults (D.sees desk.new).read_faults result }
{
    let Some(id) = desk.find(name)? else {
        return Ok(None);
    };
    let size = desk.size(id)?;
    let mut bytes = vec![in alloc; 0u8; size as usize]?;
    desk.read_at(id, 0, &mut bytes)?;
    Ok(Some(bytes))
}

// Why `append_both` stopped.
#[derive(Debug, Drop)]
enum Halt {
    Read,
    Write,
    NoMem,
}

impl From<Failed> for Halt {
    ghost from_gives = { λ _ halt. halt ≡ Read };

    fn from(_: Failed) -> Self {
        Halt::Read
    }
}

// A caller of any desk: a piece comes to the end of an output.
fn write<D: Desk>(desk: &mut D, to: u32, piece: &[u8]) -> Result<(), Halt>
    requires to { to < (D.sees desk.old).made }
    ensures appended { OnOk result (Appended (D.sees desk.old) (D.sees desk.new) to piece.now) }
    ensures causes { Causes (D.sees desk.old) (D.sees desk.new) (IsErrOf result Halt.Read) (IsErrOf result Halt.Write) }
{
    match desk.append(to, piece) {
        Ok(()) => Ok(()),
        Err(DeskFault::Failed) => Err(Halt::Write),
        Err(DeskFault::NoMem) => Err(Halt::NoMem),
    }
}

// A caller of any desk: an input is looked at, and two pieces come to the end of an output.
fn append_both<D: Desk>(
    desk: &mut D,
    from: u32,
    to: u32,
    first: &[u8],
    second: &[u8],
) -> Result<(), Halt>
    requires from { from < (D.sees desk.old).found }
    requires to { to < (D.sees desk.old).made }
    ensures grown { OnOk result (Grown (D.sees desk.old) (D.sees desk.new) to (first.now ++ second.now)) }
    ensures causes { Causes (D.sees desk.old) (D.sees desk.new) (IsErrOf result Halt.Read) (IsErrOf result Halt.Write) }
{
    write(desk, to, first)?;
    desk.size(from)?;
    write(desk, to, second)?;
    Ok(())
}

// A desk with two inputs of one name and with one output: one call was made.
fn prepared(alloc: Global) -> Result<MemDesk, DeskFault>
    ensures inputs { IfOk result (λ desk. length desk.inputs ≡ 2) }
    ensures outputs { IfOk result (λ desk. length desk.outputs ≡ 1) }
{
    let mut desk = MemDesk::new(alloc);
    desk.add_input("a", b"first")?;
    desk.add_input("a", b"second")?;
    desk.create("out")?;
    Ok(desk)
}

// What each of six calls was refused for.
fn six_calls(desk: &mut MemDesk) -> [Option<DeskFault>; 6]
    requires input { 2 ≤ length desk.old.inputs }
    requires output { 1 ≤ length desk.old.outputs }
{
    [
        desk.find("a").err(),
        desk.size(0).err().map(DeskFault::from),
        desk.read_at(1, 0, &mut []).err().map(DeskFault::from),
        desk.create("other").err(),
        desk.append(0, b"bytes").err(),
        desk.say(b"text").err(),
    ]
}

// The one call of that place was refused with Failed, and no other.
fn fails_alone(answers: &[Option<DeskFault>], place: usize) -> bool {
    answers.iter().enumerate().all(|(i, answer)| *answer
        == (i == place).then_some(DeskFault::Failed))
}

// Which of the six calls is to fail, how many bytes of its piece are to stand, and what is in the output and was said
// then.
const FAILING: [(usize, usize, &[u8], &[u8]); 9] = [
    (0, 0, b"bytes", b"text"),
    (1, 0, b"bytes", b"text"),
    (2, 0, b"bytes", b"text"),
    (3, 0, b"bytes", b"text"),
    (4, 0, b"", b"text"),
    (4, 2, b"by", b"text"),
    (5, 3, b"bytes", b"tex"),
    (5, 9, b"bytes", b"text"),
    (6, 0, b"bytes", b"text"),
];

// A row of a table holds.
fn holds(rt: &impl Abort, so: bool, row: &impl Debug) {
    assert!(rt; so, "at {row:?}");
}

// Of six calls on a new desk the one of a place fails alone, a part of its piece stands, and so are the output and what
// was said.
fn fails(rt: &impl Abort, alloc: Global, place: usize, part: usize, written: &[u8], said: &[u8]) {
    let mut desk = prepared(alloc).expect(rt, "no desk");
    let call = desk.calls().saturating_add(place as u64);
    desk.fail_part_at(call, part).expect(rt, "no memory");
    let answers = six_calls(&mut desk);
    holds(rt, fails_alone(&answers, place), &place);
    holds(rt, desk.output("out") == Some(written), &place);
    holds(rt, desk.said() == said, &place);
}

#[test]
fn the_call_that_is_to_fail_fails_alone(rt: HostRuntime) {
    for &(place, part, written, said) in &FAILING {
        fails(&rt, rt.alloc(), place, part, written, said);
    }
}

#[test]
fn a_desk_in_memory_gives_and_takes_bytes(rt: HostRuntime) {
    let mut desk = prepared(rt.alloc()).expect(&rt, "no desk");
    assert!(rt; append_both(&mut desk, 0, 0, b"one, ", b"two").is_ok());
    assert!(rt; desk.output("out") == Some(b"one, two"));
    let found = contents(&mut desk, rt.alloc(), "a").expect(&rt, "no contents");
    let bytes = found.expect(&rt, "an input that is there was not found");
    assert!(rt; bytes.as_slice() == b"first".as_slice());
    assert!(rt; desk.fail_at(desk.calls()).is_ok());
    assert!(rt; desk.find("a") == Err(DeskFault::Failed));
}

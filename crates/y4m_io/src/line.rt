// A line, made of parts.
ghost use Rattle.std.specs.Prelude.{◌≡◌, ◌≤◌, ◌+◌, ◌++◌, length, decimal};
ghost use Rattle.arrayvec.specs.ArrayVec.{array_vec_len};
ghost use Rattle.y4m_io.specs.Parts.{characters, line_of, room_of, room_for};

use arrayvec::ArrayVec;
use itoa::Buffer;

/// A part of a line.
#[derive(Clone, Copy)]
pub(crate) enum Part<'a> {
    Text(&'a str),
    /// In decimal digits, with no leading zero.
    Number(u32),
}

// More characters at the end, for which there is room.
fn append<const N: usize>(line: &mut ArrayVec<u8, N>, characters: &[u8])
    requires { array_vec_len line.old + length characters.now ≤ N }
    ensures items { line.new.items ≡ line.old.items ++ characters.now }
{
    let _ = line.try_extend_from_slice(characters);
}

impl Part<'_> {
    // Its characters at the end of a line.
    fn append_to<const N: usize>(&self, line: &mut ArrayVec<u8, N>)
        requires { array_vec_len line.old + room_of self.now ≤ N }
        ensures items { line.new.items ≡ line.old.items ++ characters self.now }
        ensures len { array_vec_len line.new ≤ array_vec_len line.old + room_of self.now }
    {
        match self {
            Part::Text(text) => append(line, text.as_bytes()),
            Part::Number(number) => append(line, Buffer::new().format(*number).as_bytes()),
        }
    }
}

/// The characters of the parts, one behind the other, and a line feed.
pub(crate) fn line<const N: usize>(parts: &[Part]) -> ArrayVec<u8, N>
    requires { room_for parts.now ≤ N }
    ensures { result.items ≡ line_of parts.now }
{
    let mut line = ArrayVec::new();
    'parts: for part in parts {
        part.append_to(&mut line);
    }
    line.push(b'\n');
    line
}

// Reading YUV4MPEG2 (own).
ghost use Rattle.std.specs.Prelude.{◌≡◌, ◌<◌, ◌≤◌, ◌+◌, ◌-◌, ◌^◌, None, IfOk, IsErrOf, OnOk, OnErr, length, vec_len};
ghost use Rattle.vid_desk.specs.Meaning.{Rose, Told, with_reads};
ghost use Rattle.y4m_io.specs.HeadLine.{IsHead};
ghost use Rattle.y4m_io.specs.Pictures.{samples_of, IsPictureOf};
ghost use Rattle.y4m_io.specs.Planes.{IsLike};

use crate::fault::{Y4mFault, Y4mWhy};
use crate::frame_line::{LONGEST_LINE, read_line};
use crate::head::Head;
use crate::head_line::read_head;
use crate::input::Input;
use crate::picture::Picture;
use std::alloc::{AllocError, Global};
use vid_desk::{Desk, Failed};

/// The most bytes of a head with its line feed.
const LONGEST_HEAD: usize = 1024;

/// The most frames (own).
const MOST_FRAMES: u32 = 1 << 24;

/// A stream that is read, frame by frame.
#[derive(Drop)]
pub struct Y4m {
    pub(crate) input: Input,
    /// The byte that is read next.
    pub(crate) at: u64,
    /// Frames that were read.
    pub(crate) frames: u32,
    pub(crate) head: Head,
    /// The departure that was found.
    pub(crate) bad: Option<Y4mWhy>,
    /// Room for a line.
    front: Vec<u8>,
    ghost within: { at ≤ input.size },
    ghost few: { frames ≤ 2 ^ 24 },
    ghost sound: { IsHead head },
    ghost room: { vec_len front ≡ 1024 },
}

// So many zeros.
fn zeros(alloc: Global, count: usize) -> Result<Vec<u8>, AllocError>
    ensures { IfOk result (λ zeros. vec_len zeros ≡ count) }
{
    Vec::from_elem(alloc, 0u8, count)
}

impl Y4m {
    ghost use Rattle.y4m_io.specs.Progress.{progress_of, IsOfInput, IsStart, StopsIn, Finds, FindsLine, IfFound, IsNumbered, Gives, StaysIn, Turns};

    /// Reads the head. `Bad` is its first departure; its frame is 0.
    pub fn start<D: Desk>(alloc: Global, desk: &mut D, id: u32) -> Result<Y4m, Y4mFault>
        requires id { id < (D.sees desk.old).found }
        ensures started { IfOk result (λ y. Told (D.sees desk.old) id (λ bytes. IsStart bytes (progress_of y))) }
        ensures input { IfOk result (λ y. ((progress_of y).input ≡ id) × IsOfInput (D.sees desk.new) (progress_of y)) }
        ensures fresh { IfOk result (λ y. ((progress_of y).frames ≡ 0) × ((progress_of y).bad ≡ None)) }
        ensures fault { OnErr result (Told (D.sees desk.old) id (StopsIn result)) }
        ensures numbered { IsNumbered 0 result }
        ensures kept { with_reads (D.sees desk.old) (D.sees desk.new) }
        ensures count { (D.sees desk.old).read_faults ≤ (D.sees desk.new).read_faults }
        ensures cause { IsErrOf result Y4mFault.ReadFault → Rose (D.sees desk.old).read_faults (D.sees desk.new).read_faults }
    {
        let Ok(size) = desk.size(id) else {
            return Err(Y4mFault::ReadFault);
        };
        let input = Input { id, size };
        let mut front = zeros(alloc, LONGEST_HEAD)?;
        let count = input.read_front(desk, 0, LONGEST_HEAD, &mut front)?;
        match read_head(&front[..count]) {
            Ok(read) => Ok(Y4m {
                input,
                at: read.size as u64,
                frames: 0,
                head: read.head,
                bad: None,
                front,
            }),
            Err(why) => Err(Y4mFault::Bad { frame: 0, why }),
        }
    }

    /// What the head says. Its picture has a size, its rate is above 0, and the numbers of its aspect are below 2^24.
    pub fn head(&self) -> &Head
        ensures value { result.now ≡ (progress_of self.now).head }
        ensures sound { IsHead result.now }
    {
        &self.head
    }

    // Reads the line of the next frame, and gives the number of its bytes.
    fn next_line<D: Desk>(&mut self, desk: &mut D) -> Result<usize, Y4mFault>
        requires id { (progress_of self.old).input < (D.sees desk.old).found }
        requires of { IsOfInput (D.sees desk.old) (progress_of self.old) }
        ensures line { Told (D.sees desk.old) (progress_of self.old).input (FindsLine result (progress_of self.old)) }
        ensures within { IfOk result (λ line. line ≤ (progress_of self.old).size - (progress_of self.old).at) }
        ensures numbered { IsNumbered (progress_of self.old).frames result }
        ensures same { progress_of self.new ≡ progress_of self.old }
        ensures memory { ¬ IsErrOf result Y4mFault.NoMem }
        ensures kept { with_reads (D.sees desk.old) (D.sees desk.new) }
        ensures count { (D.sees desk.old).read_faults ≤ (D.sees desk.new).read_faults }
        ensures cause { IsErrOf result Y4mFault.ReadFault → Rose (D.sees desk.old).read_faults (D.sees desk.new).read_faults }
    {
        let input = self.input;
        let count = input.read_front(desk, self.at, LONGEST_LINE, &mut self.front)?;
        match read_line(&self.front[..count]) {
            Ok(line) => Ok(line),
            Err(why) => Err(Y4mFault::Bad {
                frame: self.frames,
                why,
            }),
        }
    }

    // Reads what comes next: a picture, of which it gives the number of bytes, or the end.
    fn next_frame<D: Desk>(
        &mut self,
        desk: &mut D,
        into: &mut Picture,
    ) -> Result<Option<usize>, Y4mFault>
        requires id { (progress_of self.old).input < (D.sees desk.old).found }
        requires of { IsOfInput (D.sees desk.old) (progress_of self.old) }
        requires into { IsPictureOf self.old.head.w self.old.head.h self.old.head.pf (samples_of into.old) }
        ensures found { Told (D.sees desk.old) (progress_of self.old).input (Finds result (progress_of self.old) (samples_of into.new)) }
        ensures within { IfOk result (IfFound (progress_of self.old)) }
        ensures numbered { IsNumbered (progress_of self.old).frames result }
        ensures same { progress_of self.new ≡ progress_of self.old }
        ensures memory { ¬ IsErrOf result Y4mFault.NoMem }
        ensures into { IsLike (samples_of into.old) (samples_of into.new) }
        ensures kept { with_reads (D.sees desk.old) (D.sees desk.new) }
        ensures count { (D.sees desk.old).read_faults ≤ (D.sees desk.new).read_faults }
        ensures cause { IsErrOf result Y4mFault.ReadFault → Rose (D.sees desk.old).read_faults (D.sees desk.new).read_faults }
    {
        let frame = self.frames;
        if self.at == self.input.size {
            return if frame == 0 {
                Err(Y4mFault::Bad {
                    frame,
                    why: Y4mWhy::Empty,
                })
            } else {
                Ok(None)
            };
        }
        if frame >= MOST_FRAMES {
            return Err(Y4mFault::Bad {
                frame,
                why: Y4mWhy::TooMany,
            });
        }
        let line = match self.next_line(desk) {
            Ok(line) => line,
            Err(fault) => return Err(fault),
        };
        let planes = into.y.len() + into.cb.len() + into.cr.len();
        if self.input.size - self.at - (line as u64) < planes as u64 {
            return Err(Y4mFault::Bad {
                frame,
                why: Y4mWhy::Short,
            });
        }
        self.input.read_planes(desk, self.at + line as u64, into)?;
        Ok(Some(line + planes))
    }

    /// Reads the next picture, and answers whether there was one: false stands at the input's end, behind at least one. `Bad`
    /// is the first departure, and is answered for good. After `ReadFault` the place stays. Whatever the answer, the picture
    /// keeps its size, its format and the lengths of its lists; after `Bad` and `ReadFault` its samples may be any.
    pub fn next<D: Desk>(&mut self, desk: &mut D, into: &mut Picture) -> Result<bool, Y4mFault>
        requires id { (progress_of self.old).input < (D.sees desk.old).found }
        requires of { IsOfInput (D.sees desk.old) (progress_of self.old) }
        requires into { IsPictureOf self.old.head.w self.old.head.h self.old.head.pf (samples_of into.old) }
        ensures gives { Told (D.sees desk.old) (progress_of self.old).input (Gives result (progress_of self.old) (progress_of self.new) (samples_of into.new)) }
        ensures turns { Turns result (progress_of self.old) (progress_of self.new) }
        ensures stays { StaysIn (progress_of self.old) (progress_of self.new) }
        ensures of { IsOfInput (D.sees desk.new) (progress_of self.new) }
        ensures into { IsPictureOf self.old.head.w self.old.head.h self.old.head.pf (samples_of into.new) }
        ensures memory { ¬ IsErrOf result Y4mFault.NoMem }
        ensures kept { with_reads (D.sees desk.old) (D.sees desk.new) }
        ensures count { (D.sees desk.old).read_faults ≤ (D.sees desk.new).read_faults }
        ensures cause { IsErrOf result Y4mFault.ReadFault → Rose (D.sees desk.old).read_faults (D.sees desk.new).read_faults }
    {
        if let Some(why) = self.bad {
            return Err(Y4mFault::Bad {
                frame: self.frames,
                why,
            });
        }
        match self.next_frame(desk, into) {
            Ok(None) => Ok(false),
            Ok(Some(size)) => {
                self.at += size as u64;
                self.frames += 1;
                Ok(true)
            }
            Err(Y4mFault::Bad { frame, why }) => {
                self.bad = Some(why);
                Err(Y4mFault::Bad { frame, why })
            }
            Err(fault) => Err(fault),
        }
    }
}

// Reading an input in pieces (own).
ghost use Rattle.std.specs.Prelude.{◌≡◌, ◌+◌, ◌-◌, ◌<◌, ◌≤◌, IfOk, OnOk, OnErr, length, take, drop, min, vec_len};
ghost use Rattle.vid_desk.specs.Meaning.{Rose, Told, with_reads};
ghost use Rattle.y4m_io.specs.Pictures.{samples_of};
ghost use Rattle.y4m_io.specs.Planes.{ArePlanes, IsLike};

use crate::picture::Picture;
use vid_desk::{Desk, Failed};

/// An input and its length in bytes.
#[derive(Clone, Copy)]
pub(crate) struct Input {
    pub(crate) id: u32,
    pub(crate) size: u64,
}

impl Input {
    /// Fills a list with the bytes from `at` on, of which there are as many.
    pub(crate) fn read<D: Desk>(&self, desk: &mut D, at: u64, into: &mut [u8]) -> Result<(), Failed>
        requires id { self.now.id < (D.sees desk.old).found }
        requires size { Told (D.sees desk.old) self.now.id (λ bytes. self.now.size ≡ length bytes) }
        requires within { at + length into.old ≤ self.now.size }
        ensures bytes { OnOk result (Told (D.sees desk.old) self.now.id (λ bytes. into.new ≡ take (length into.old) (drop at bytes))) }
        ensures sized { length into.new ≡ length into.old }
        ensures kept { with_reads (D.sees desk.old) (D.sees desk.new) }
        ensures count { (D.sees desk.old).read_faults ≤ (D.sees desk.new).read_faults }
        ensures cause { OnErr result (Rose (D.sees desk.old).read_faults (D.sees desk.new).read_faults) }
    {
        desk.read_at(self.id, at, into)
    }

    // Reads as many bytes from `at` on as there are, but no more than that, and gives their number. Where there are none, nothing
    // is read.
    fn read_most<D: Desk>(
        &self,
        desk: &mut D,
        at: u64,
        most: usize,
        front: &mut [u8],
    ) -> Result<usize, Failed>
        requires id { self.now.id < (D.sees desk.old).found }
        requires size { Told (D.sees desk.old) self.now.id (λ bytes. self.now.size ≡ length bytes) }
        requires within { at ≤ self.now.size }
        requires room { most ≤ length front.old }
        ensures bytes { IfOk result (λ n. Told (D.sees desk.old) self.now.id (λ bytes. take n front.new ≡ take most (drop at bytes))) }
        ensures many { IfOk result (λ n. n ≡ min (self.now.size - at) most) }
        ensures sized { length front.new ≡ length front.old }
        ensures kept { with_reads (D.sees desk.old) (D.sees desk.new) }
        ensures count { (D.sees desk.old).read_faults ≤ (D.sees desk.new).read_faults }
        ensures cause { OnErr result (Rose (D.sees desk.old).read_faults (D.sees desk.new).read_faults) }
    {
        let count = (self.size - at).min(most as u64) as usize;
        if count == 0 {
            return Ok(0);
        }
        self.read(desk, at, &mut front[..count])?;
        Ok(count)
    }

    /// Reads the bytes from `at` on to the front of a list, as many as there are, but no more than that, and gives their number.
    pub(crate) fn read_front<D: Desk>(
        &self,
        desk: &mut D,
        at: u64,
        most: usize,
        front: &mut Vec<u8>,
    ) -> Result<usize, Failed>
        requires id { self.now.id < (D.sees desk.old).found }
        requires size { Told (D.sees desk.old) self.now.id (λ bytes. self.now.size ≡ length bytes) }
        requires within { at ≤ self.now.size }
        requires room { most ≤ vec_len front.old }
        ensures bytes { IfOk result (λ n. Told (D.sees desk.old) self.now.id (λ bytes. take n front.new.items ≡ take most (drop at bytes))) }
        ensures many { IfOk result (λ n. n ≡ min (self.now.size - at) most) }
        ensures sized { vec_len front.new ≡ vec_len front.old }
        ensures kept { with_reads (D.sees desk.old) (D.sees desk.new) }
        ensures count { (D.sees desk.old).read_faults ≤ (D.sees desk.new).read_faults }
        ensures cause { OnErr result (Rose (D.sees desk.old).read_faults (D.sees desk.new).read_faults) }
    {
        self.read_most(desk, at, most, front.as_mut_slice())
    }

    /// Fills the planes of a picture with the bytes from `at` on.
    pub(crate) fn read_planes<D: Desk>(
        &self,
        desk: &mut D,
        at: u64,
        into: &mut Picture,
    ) -> Result<(), Failed>
        requires id { self.now.id < (D.sees desk.old).found }
        requires size { Told (D.sees desk.old) self.now.id (λ bytes. self.now.size ≡ length bytes) }
        requires within { at + (vec_len into.old.y + vec_len into.old.cb + vec_len into.old.cr) ≤ self.now.size }
        ensures planes { OnOk result (Told (D.sees desk.old) self.now.id (ArePlanes (samples_of into.old) (samples_of into.new) at)) }
        ensures sized { IsLike (samples_of into.old) (samples_of into.new) }
        ensures kept { with_reads (D.sees desk.old) (D.sees desk.new) }
        ensures count { (D.sees desk.old).read_faults ≤ (D.sees desk.new).read_faults }
        ensures cause { OnErr result (Rose (D.sees desk.old).read_faults (D.sees desk.new).read_faults) }
    {
        let cb = at + into.y.len() as u64;
        let cr = cb + into.cb.len() as u64;
        self.read(desk, at, &mut into.y)?;
        self.read(desk, cb, &mut into.cb)?;
        self.read(desk, cr, &mut into.cr)
    }
}

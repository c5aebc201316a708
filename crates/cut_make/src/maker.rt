// The pictures of a film, made and written one after another (own).
ghost use Rattle.std.specs.Prelude.{◌≡◌, ◌+◌, ◌^◌, ◌<◌, ◌≤◌, length, vec_len, IfErr, IfOk, IsErrOf, OnErr, OnOk};
ghost use Rattle.vid_desk.specs.Meaning.{Rose};
ghost use Rattle.cut_desk.specs.Making.{Adds};
ghost use Rattle.y4m_io.specs.Generator.{generated_head};
ghost use Rattle.y4m_io.specs.Y4m.{frame_text, head_text};
ghost use Rattle.cut_make.specs.Films.{IsFilm};
ghost use Rattle.cut_make.specs.Makers.{AddsPart, IsMaker, frame_of};
ghost use Rattle.cut_make.specs.Statuses.{IsWriting};

use crate::film::Film;
use cut_desk::writing;
use cut_report::Status;
use std::alloc::Global;
use vid_base::NoMem;
use vid_desk::Desk;
use y4m_io::{Head, Picture, make_frame, write_frame, write_head};

/// What a film is made with. It is made once, and used for each picture.
#[derive(Drop)]
pub(crate) struct Maker {
    pub(crate) film: Film,
    picture: Picture,
    text: Vec<u8>,
}

impl Maker {
    /// Before the first picture of a film.
    pub(crate) fn new(alloc: Global, film: &Film) -> Result<Maker, NoMem>
        requires film { IsFilm film.now }
        ensures maker { IfOk result IsMaker }
        ensures film { IfOk result (λ maker. maker.film ≡ film.now) }
    {
        let picture = Picture::new(alloc, film.w, film.h, 0)?;
        Ok(Maker {
            film: *film,
            picture,
            text: Vec::new(alloc),
        })
    }

    // Appends the text to the output, and gives the number of its bytes.
    fn append<D: Desk>(&self, desk: &mut D, id: u32) -> Result<u64, Status>
        requires id { id < (D.sees desk.old).made }
        ensures added { OnOk result (Adds (D.sees desk.old) (D.sees desk.new) id self.now.text.items) }
        ensures bytes { IfOk result (λ bytes. bytes ≡ vec_len self.now.text) }
        ensures part { OnErr result (AddsPart (D.sees desk.old) (D.sees desk.new) id self.now.text.items) }
        ensures cause { IsErrOf result Status.WriteFault → Rose (D.sees desk.old).write_faults (D.sees desk.new).write_faults }
        ensures only { IfErr result IsWriting }
    {
        match desk.append(id, &self.text) {
            Ok(()) => Ok(self.text.len() as u64),
            Err(fault) => Err(writing(fault)),
        }
    }

    /// Appends the head of the pictures, and gives the number of its bytes.
    pub(crate) fn add_head<D: Desk>(&mut self, desk: &mut D, id: u32) -> Result<u64, Status>
        requires id { id < (D.sees desk.old).made }
        requires maker { IsMaker self.old }
        ensures added { OnOk result (Adds (D.sees desk.old) (D.sees desk.new) id (head_text (generated_head self.old.film.w self.old.film.h))) }
        ensures bytes { IfOk result (λ bytes. bytes ≡ length (head_text (generated_head self.old.film.w self.old.film.h))) }
        ensures few { IfOk result (λ bytes. bytes < 2 ^ 63) }
        ensures part { OnErr result (AddsPart (D.sees desk.old) (D.sees desk.new) id (head_text (generated_head self.old.film.w self.old.film.h))) }
        ensures maker { IsMaker self.new }
        ensures film { self.new.film ≡ self.old.film }
        ensures cause { IsErrOf result Status.WriteFault → Rose (D.sees desk.old).write_faults (D.sees desk.new).write_faults }
        ensures only { IfErr result IsWriting }
    {
        self.text.clear();
        if write_head(&mut self.text, &Head::generated(self.film.w, self.film.h)).is_err() {
            return Err(Status::NoMem);
        }
        match self.append(desk, id) {
            Ok(bytes) => Ok(bytes),
            Err(status) => Err(status),
        }
    }

    /// Appends picture n of the film, and gives the number of its bytes.
    pub(crate) fn add_frame<D: Desk>(
        &mut self,
        desk: &mut D,
        id: u32,
        n: u32,
    ) -> Result<u64, Status>
        requires id { id < (D.sees desk.old).made }
        requires maker { IsMaker self.old }
        ensures added { OnOk result (Adds (D.sees desk.old) (D.sees desk.new) id (frame_text (frame_of self.old.film n))) }
        ensures bytes { IfOk result (λ bytes. bytes ≡ length (frame_text (frame_of self.old.film n))) }
        ensures few { IfOk result (λ bytes. bytes ≤ 2 ^ 27) }
        ensures part { OnErr result (AddsPart (D.sees desk.old) (D.sees desk.new) id (frame_text (frame_of self.old.film n))) }
        ensures maker { IsMaker self.new }
        ensures film { self.new.film ≡ self.old.film }
        ensures cause { IsErrOf result Status.WriteFault → Rose (D.sees desk.old).write_faults (D.sees desk.new).write_faults }
        ensures only { IfErr result IsWriting }
    {
        make_frame(&mut self.picture, self.film.start, n);
        self.text.clear();
        if write_frame(&mut self.text, &self.picture).is_err() {
            return Err(Status::NoMem);
        }
        match self.append(desk, id) {
            Ok(bytes) => Ok(bytes),
            Err(status) => Err(status),
        }
    }
}

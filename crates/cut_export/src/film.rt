// The pictures of a source, one after another (own).
ghost use Rattle.std.specs.Prelude.{◌≡◌, ◌+◌, ◌++◌, ◌<◌, ◌≤◌, List, ℕ, None, IfErr, IfOk, IsErrOf, IsOk, OnErr, OnOk};
ghost use Rattle.vid_desk.specs.Meaning.{Rose, ToldFiles, with_reads};
ghost use Rattle.cut_desk.specs.Growing.{Grows};
ghost use Rattle.src_index.specs.Index.{frame_count};
ghost use Rattle.src_index.specs.Loading.{IsLoadedFrom};
ghost use Rattle.src_index.specs.Track.{frame_at};
ghost use Rattle.thr_frame.specs.Step.{step};
ghost use Rattle.y4m_io.specs.Pictures.{samples_of};
ghost use Rattle.y4m_io.specs.Heads.{head_of_ident};
ghost use Rattle.y4m_io.specs.Y4m.{frame_text, head_text};
ghost use Rattle.cut_export.specs.Films.{FilmIsFar, IsFilmOf, Shows, Stays, ToldTrack};
ghost use Rattle.cut_export.specs.Statuses.{IsRereading, IsWriting, IsExporting, reread_status};

use cut_desk::writing;
use cut_report::Status;
use src_index::{Source, SourceFault};
use std::alloc::Global;
use thr_frame::Decoder;
use thr_ident::Ident;
use vid_base::NoMem;
use vid_desk::Desk;
use y4m_io::{Head, Picture, write_head};

/// A source has one link, the first.
const LINK: u32 = 1;

/// The line before a picture's planes.
const LINE: [u8; 6] = *b"FRAME\n";

/// What an export works with. It is made once, and used for each frame.
#[derive(Drop)]
pub(crate) struct Film {
    ident: Ident,
    decoder: Decoder,
    picture: Picture,
    packet: Vec<u8>,
}

// The status of a packet that was not read again.
fn reread(fault: SourceFault) -> Status
    ensures { result ≡ reread_status fault }
{
    match fault {
        SourceFault::ReadFault => Status::ReadFault,
        SourceFault::NoMem => Status::NoMem,
        _ => Status::Changed,
    }
}

// Appends a piece to the output.
fn add<D: Desk>(desk: &mut D, id: u32, piece: &[u8]) -> Result<(), Status>
    requires id { id < (D.sees desk.old).made }
    ensures added { OnOk result (Grows (D.sees desk.old) (D.sees desk.new) id piece.now) }
    ensures part { OnErr result ((came : List ℕ) × Grows (D.sees desk.old) (D.sees desk.new) id came) }
    ensures cause { IsErrOf result Status.WriteFault → Rose (D.sees desk.old).write_faults (D.sees desk.new).write_faults }
    ensures only { IfErr result IsWriting }
{
    match desk.append(id, piece) {
        Ok(()) => Ok(()),
        Err(fault) => Err(writing(fault)),
    }
}

// Appends two pieces to the output.
fn add_both<D: Desk>(desk: &mut D, id: u32, one: &[u8], other: &[u8]) -> Result<(), Status>
    requires id { id < (D.sees desk.old).made }
    ensures added { OnOk result (Grows (D.sees desk.old) (D.sees desk.new) id (one.now ++ other.now)) }
    ensures part { OnErr result ((came : List ℕ) × Grows (D.sees desk.old) (D.sees desk.new) id came) }
    ensures cause { IsErrOf result Status.WriteFault → Rose (D.sees desk.old).write_faults (D.sees desk.new).write_faults }
    ensures only { IfErr result IsWriting }
{
    match add(desk, id, one) {
        Ok(()) => {}
        Err(status) => return Err(status),
    }
    match add(desk, id, other) {
        Ok(()) => Ok(()),
        Err(status) => Err(status),
    }
}

impl Film {
    /// Before the first frame of a source.
    pub(crate) fn new(alloc: Global, source: &Source) -> Result<Film, NoMem>
        ensures film { IfOk result (IsFilmOf source.now) }
        ensures state { IfOk result (λ film. film.decoder.state ≡ None) }
    {
        let ident = *source.ident(LINK);
        let decoder = Decoder::new(alloc, &ident, source.setup(LINK))?;
        let picture = Picture::new(alloc, ident.picw, ident.pich, ident.pf)?;
        Ok(Film {
            ident,
            decoder,
            picture,
            packet: Vec::new(alloc),
        })
    }

    // Reads the packet of frame n again.
    fn read<D: Desk>(&mut self, desk: &mut D, source: &Source, n: u32) -> Result<(), Status>
        requires frame { n < frame_count source.now }
        requires id { source.now.input < (D.sees desk.old).found }
        requires made { IsLoadedFrom (D.sees desk.old) source.now.input source.now }
        requires film { IsFilmOf source.now self.old }
        ensures packet { OnOk result (ToldTrack (D.sees desk.old) source.now.input (λ packets. self.new.packet.items ≡ frame_at packets n)) }
        ensures film { IsFilmOf source.now self.new }
        ensures stays { Stays self.old self.new }
        ensures state { self.new.decoder.state ≡ self.old.decoder.state }
        ensures never { ToldFiles (D.sees desk.old) (λ files. ¬ IsErrOf result Status.Changed) }
        ensures kept { with_reads (D.sees desk.old) (D.sees desk.new) }
        ensures count { (D.sees desk.old).read_faults ≤ (D.sees desk.new).read_faults }
        ensures cause { IsErrOf result Status.ReadFault → Rose (D.sees desk.old).read_faults (D.sees desk.new).read_faults }
        ensures only { IfErr result IsRereading }
    {
        match source.packet(desk, n, &mut self.packet) {
            Ok(()) => Ok(()),
            Err(fault) => Err(reread(fault)),
        }
    }

    // Decodes the packet that was read, and takes its picture over.
    fn show(&mut self, source: &Source) -> Result<(), Status>
        requires film { IsFilmOf source.now self.old }
        ensures shows { OnOk result (Shows self.old self.new) }
        ensures film { IsFilmOf source.now self.new }
        ensures stays { Stays self.old self.new }
        ensures faulty { OnErr result (¬ IsOk (step self.old.decoder.setup self.old.decoder.shape self.old.decoder.state self.old.packet.items)) }
        ensures only { OnErr result (IsErrOf result Status.Changed) }
    {
        match self.decoder.step(&self.packet) {
            Ok(_) => {}
            Err(_) => return Err(Status::Changed),
        }
        self.picture.crop(self.decoder.frame(), &self.ident);
        Ok(())
    }

    // Appends the picture to the output, its planes from where they lie.
    fn append<D: Desk>(&mut self, desk: &mut D, source: &Source, id: u32) -> Result<(), Status>
        requires id { id < (D.sees desk.old).made }
        requires film { IsFilmOf source.now self.old }
        ensures added { OnOk result (Grows (D.sees desk.old) (D.sees desk.new) id (frame_text (samples_of self.old.picture))) }
        ensures part { OnErr result ((came : List ℕ) × Grows (D.sees desk.old) (D.sees desk.new) id came) }
        ensures film { IsFilmOf source.now self.new }
        ensures stays { Stays self.old self.new }
        ensures state { self.new.decoder.state ≡ self.old.decoder.state }
        ensures cause { IsErrOf result Status.WriteFault → Rose (D.sees desk.old).write_faults (D.sees desk.new).write_faults }
        ensures only { IfErr result IsWriting }
    {
        match add_both(desk, id, &LINE, &self.picture.y) {
            Ok(()) => {}
            Err(status) => return Err(status),
        }
        match add_both(desk, id, &self.picture.cb, &self.picture.cr) {
            Ok(()) => Ok(()),
            Err(status) => Err(status),
        }
    }

    /// Appends the head of the pictures.
    pub(crate) fn add_head<D: Desk>(
        &mut self,
        alloc: Global,
        desk: &mut D,
        source: &Source,
        id: u32,
    ) -> Result<(), Status>
        requires id { id < (D.sees desk.old).made }
        requires film { IsFilmOf source.now self.old }
        ensures added { OnOk result (Grows (D.sees desk.old) (D.sees desk.new) id (head_text (head_of_ident self.old.ident))) }
        ensures part { OnErr result ((came : List ℕ) × Grows (D.sees desk.old) (D.sees desk.new) id came) }
        ensures film { IsFilmOf source.now self.new }
        ensures stays { Stays self.old self.new }
        ensures state { self.new.decoder.state ≡ self.old.decoder.state }
        ensures cause { IsErrOf result Status.WriteFault → Rose (D.sees desk.old).write_faults (D.sees desk.new).write_faults }
        ensures only { IfErr result IsWriting }
    {
        let mut text = Vec::new(alloc);
        if write_head(&mut text, &Head::of(&self.ident)).is_err() {
            return Err(Status::NoMem);
        }
        match add(desk, id, &text) {
            Ok(()) => Ok(()),
            Err(status) => Err(status),
        }
    }

    /// Reads frame n again, decodes it behind those before it, and appends its picture.
    pub(crate) fn add_frame<D: Desk>(
        &mut self,
        desk: &mut D,
        source: &Source,
        id: u32,
        n: u32,
    ) -> Result<(), Status>
        requires frame { n < frame_count source.now }
        requires id { id < (D.sees desk.old).made }
        requires input { source.now.input < (D.sees desk.old).found }
        requires made { IsLoadedFrom (D.sees desk.old) source.now.input source.now }
        requires film { IsFilmOf source.now self.old }
        ensures added { OnOk result ((came : List ℕ) × Grows (D.sees desk.old) (D.sees desk.new) id came
            × ToldTrack (D.sees desk.old) source.now.input (λ packets. (text : List ℕ) → FilmIsFar self.old packets n text → FilmIsFar self.new packets (n + 1) (text ++ came))) }
        ensures part { OnErr result ((came : List ℕ) × Grows (D.sees desk.old) (D.sees desk.new) id came) }
        ensures film { IsFilmOf source.now self.new }
        ensures stays { Stays self.old self.new }
        ensures never { ToldTrack (D.sees desk.old) source.now.input (λ packets. (text : List ℕ) → FilmIsFar self.old packets n text → ¬ IsErrOf result Status.Changed) }
        ensures read { IsErrOf result Status.ReadFault → Rose (D.sees desk.old).read_faults (D.sees desk.new).read_faults }
        ensures write { IsErrOf result Status.WriteFault → Rose (D.sees desk.old).write_faults (D.sees desk.new).write_faults }
        ensures only { IfErr result IsExporting }
    {
        match self.read(desk, source, n) {
            Ok(()) => {}
            Err(status) => return Err(status),
        }
        match self.show(source) {
            Ok(()) => {}
            Err(status) => return Err(status),
        }
        match self.append(desk, source, id) {
            Ok(()) => Ok(()),
            Err(status) => Err(status),
        }
    }
}

// Pictures coded and written one after another (own).
ghost use Rattle.std.specs.Prelude.{◌≡◌, ◌+◌, ◌^◌, ◌<◌, ◌≤◌, [], List, ℕ, false, true, is_some, None, Ok, IfErr, IfOk, IsErrOf, OnErr, OnOk};
ghost use Rattle.vid_desk.specs.Meaning.{Rose};
ghost use Rattle.cut_desk.specs.Growing.{Grows};
ghost use Rattle.ogg_link.specs.Track.{is_key};
ghost use Rattle.ogg_mux.specs.Muxing.{least_body, rest_of};
ghost use Rattle.ogg_mux.specs.OutputPages.{paged};
ghost use Rattle.thr_ident.specs.Header.{header_bytes};
ghost use Rattle.thr_ident.specs.Ident.{ident_of};
ghost use Rattle.y4m_io.specs.HeadLine.{IsHead};
ghost use Rattle.y4m_io.specs.Pictures.{IsPicture, samples_of};
ghost use Rattle.cut_import.specs.Imported.{import_header, import_shape, import_stream};
ghost use Rattle.cut_import.specs.Importers.{AddsFrame, AddsPart, AddsSome, HasCoded, IsAt, IsImporter, Stays};
ghost use Rattle.cut_import.specs.Statuses.{IsWriting};

use crate::headers::{ident_of, stream_of};
use cut_desk::writing;
use cut_report::Status;
use enc_frame::{EncFault, Encoder};
use ogg_mux::Mux;
use std::alloc::Global;
use thr_setup::import_setup;
use vid_base::NoMem;
use vid_desk::Desk;
use vid_plane::Frame;
use y4m_io::{Head, Picture};

/// What an import codes and writes with. It is made once, and used for each picture.
#[derive(Drop)]
pub(crate) struct Importer {
    encoder: Encoder,
    /// The picture that is coded, in a frame.
    target: Frame,
    packet: Vec<u8>,
    mux: Mux,
    qi: u8,
    /// Frames from one key frame to the next.
    keys: u32,
}

impl Importer {
    /// Before the first picture; the pages of the headers are ready.
    pub(crate) fn new(alloc: Global, head: &Head, qi: u8, keys: u32) -> Result<Importer, NoMem>
        requires head { IsHead head.now }
        requires qi { qi < 64 }
        requires keys { (0 < keys) × (keys ≤ 64) }
        ensures importer { IfOk result IsImporter }
        ensures at { IfOk result (IsAt 0) }
        ensures made { IfOk result (λ importer. (importer.encoder.shape ≡ import_shape head.now qi) × (importer.qi ≡ qi) × (importer.keys ≡ keys)) }
        ensures stream { IfOk result (λ importer. (packets : List (List ℕ)) → rest_of importer.mux packets ≡ paged least_body (import_stream head.now qi) packets) }
        ensures state { IfOk result (λ importer. importer.encoder.state ≡ None) }
        ensures reads { IfOk result (λ importer. ident_of (header_bytes (import_header head.now qi)) ≡ Ok (import_header head.now qi)) }
    {
        let ident = ident_of(*head, qi);
        let setup = import_setup(alloc)?;
        let target = Frame::new(alloc, ident.shape())?;
        let mux = stream_of(alloc, &ident, &setup)?;
        match Encoder::new(alloc, &ident, &setup) {
            Ok(encoder) => Ok(Importer {
                encoder,
                target,
                packet: Vec::new(alloc),
                mux,
                qi,
                keys,
            }),
            Err(EncFault::NoFullTables | EncFault::NoMem) => Err(NoMem),
        }
    }

    // Codes a picture as frame n, and answers whether it is a key frame.
    fn code(&mut self, picture: &Picture, n: u32) -> Result<bool, NoMem>
        requires importer { IsImporter self.old }
        requires started { 0 < n → is_some self.old.encoder.state ≡ true }
        requires picture { IsPicture (samples_of picture.now) }
        ensures coded { OnOk result (HasCoded self.old self.new n (samples_of picture.now) self.new.packet.items) }
        ensures key { IfOk result (λ key. key ≡ is_key self.new.packet.items) }
        ensures importer { IsImporter self.new }
        ensures started { OnOk result (is_some self.new.encoder.state ≡ true) }
        ensures stays { Stays self.old self.new }
        ensures mux { self.new.mux ≡ self.old.mux }
    {
        picture.pad(&mut self.target);
        self.packet.clear();
        if n % self.keys == 0 {
            self.encoder.key(&self.target, self.qi, &mut self.packet)?;
            return Ok(true);
        }
        self.encoder.inter(&self.target, self.qi, &mut self.packet)?;
        Ok(false)
    }

    /// Appends the pages that are ready to the output.
    pub(crate) fn append<D: Desk>(&mut self, desk: &mut D, id: u32) -> Result<(), Status>
        requires id { id < (D.sees desk.old).made }
        ensures added { OnOk result (Grows (D.sees desk.old) (D.sees desk.new) id self.old.mux.ready) }
        ensures part { OnErr result (AddsSome (D.sees desk.old) (D.sees desk.new) id self.old.mux.ready) }
        ensures kept { self.new ≡ record self.old { mux = record self.old.mux { ready = [] } } }
        ensures cause { IsErrOf result Status.WriteFault → Rose (D.sees desk.old).write_faults (D.sees desk.new).write_faults }
        ensures only { IfErr result IsWriting }
    {
        let pages = self.mux.take_bytes();
        match desk.append(id, &pages) {
            Ok(()) => Ok(()),
            Err(fault) => Err(writing(fault)),
        }
    }

    /// Codes a picture as frame n, and appends the pages that its packet makes ready.
    pub(crate) fn add_frame<D: Desk>(
        &mut self,
        desk: &mut D,
        id: u32,
        picture: &Picture,
        n: u32,
    ) -> Result<(), Status>
        requires id { id < (D.sees desk.old).made }
        requires few { n < 2 ^ 24 }
        requires importer { IsImporter self.old }
        requires at { IsAt n self.old }
        requires picture { IsPicture (samples_of picture.now) }
        ensures added { OnOk result (AddsFrame (D.sees desk.old) (D.sees desk.new) id self.old self.new n (samples_of picture.now)) }
        ensures part { OnErr result (AddsPart (D.sees desk.old) (D.sees desk.new) id self.old n (samples_of picture.now)) }
        ensures importer { IsImporter self.new }
        ensures at { OnOk result (IsAt (n + 1) self.new) }
        ensures stays { Stays self.old self.new }
        ensures cause { IsErrOf result Status.WriteFault → Rose (D.sees desk.old).write_faults (D.sees desk.new).write_faults }
        ensures only { IfErr result IsWriting }
    {
        let Ok(key) = self.code(picture, n) else {
            return Err(Status::NoMem);
        };
        match self.mux.packet(&self.packet, key) {
            Ok(()) => {}
            Err(_) => return Err(Status::NoMem),
        }
        match self.append(desk, id) {
            Ok(()) => Ok(()),
            Err(status) => Err(status),
        }
    }

    /// Appends the last page.
    pub(crate) fn end<D: Desk>(&mut self, desk: &mut D, id: u32) -> Result<(), Status>
        requires id { id < (D.sees desk.old).made }
        requires open { self.old.mux.finished ≡ false }
        ensures added { OnOk result (Grows (D.sees desk.old) (D.sees desk.new) id (rest_of self.old.mux [])) }
        ensures part { OnErr result (AddsSome (D.sees desk.old) (D.sees desk.new) id (rest_of self.old.mux [])) }
        ensures cause { IsErrOf result Status.WriteFault → Rose (D.sees desk.old).write_faults (D.sees desk.new).write_faults }
        ensures only { IfErr result IsWriting }
    {
        match self.mux.finish() {
            Ok(()) => {}
            Err(_) => return Err(Status::NoMem),
        }
        match self.append(desk, id) {
            Ok(()) => Ok(()),
            Err(status) => Err(status),
        }
    }
}

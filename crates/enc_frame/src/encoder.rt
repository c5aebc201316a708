// An encoder of frames, packet after packet (own).
ghost use Rattle.std.specs.Prelude.{◌≡◌, ◌↔◌, ◌<◌, ◌^◌, ◌++◌, Err, IfOk, IsOk, IsSomeAnd, None, OnErr, OnOk, Option, Some, false, is_some, length, true};
ghost use Rattle.thr_ident.specs.Ident.{header_of};
ghost use Rattle.thr_ident.specs.Shape.{shape_of};
ghost use Rattle.thr_huff.specs.Rows.{full_row_of};
ghost use Rattle.thr_setup.specs.Setup.{contents};
ghost use Rattle.vid_plane.specs.Frames.{IsFrameOf};
ghost use Rattle.thr_frame.specs.Painted.{AreSealed};
ghost use Rattle.thr_frame.specs.Rebuilt.{Pair};
ghost use Rattle.thr_frame.specs.Step.{is_key};
ghost use Rattle.thr_frame.specs.Parsed.{coded_in, needs_frame};
ghost use Rattle.enc_packet.specs.FullRows.{full_rows};
ghost use Rattle.enc_frame.specs.Difference.{differences, greatest, samples_of, total};
ghost use Rattle.enc_frame.specs.Encoding.{Leads, added};
ghost use Rattle.enc_frame.specs.Near.{Near};

use crate::difference::{Diff, compare};
use crate::fault::EncFault;
use crate::lists::lists;
use crate::showing::show;
use crate::sources::Sources;
use enc_packet::{Head, Rows};
use enc_search::choose;
use std::alloc::Global;
use std::marker::Model;
use thr_frame::{Coded, Work};
use thr_ident::Ident;
use thr_setup::Setup;
use vid_base::NoMem;
use vid_geom::Geom;
use vid_plane::{Frame, RefStore};

/// Codes the frames of a stream one after another, in a closed loop: it takes each packet that it writes as a decoder does, and
/// predicts the next frame from what such a decoder shows. It makes all lists once.
#[derive(Drop)]
pub struct Encoder {
    setup: Setup,
    geom: Geom,
    rows: Rows,
    store: RefStore,
    /// The lists of an intra frame, which a packet is made with.
    whole: Coded,
    /// What the last packet says.
    coded: Coded,
    work: Work,
    /// The last target.
    target: Frame,
}

impl Model for Encoder {
    ghost use Rattle.std.specs.Prelude.{◌≡◌};
    ghost use Rattle.std.specs.Coded.{codes};
    ghost use Rattle.thr_huff.specs.TreeCode.{tree_code};
    ghost use Rattle.thr_setup.specs.Setup.{contents};
    ghost use Rattle.vid_plane.specs.Frames.{IsFrameOf};
    ghost use Rattle.thr_frame.specs.CodedFrame.{IsSized, frame_of};
    ghost use Rattle.thr_frame.specs.Work.{IsWorkFor};
    ghost use Rattle.thr_frame.specs.Step.{state_of};
    ghost use Rattle.thr_frame.specs.Ready.{IsStore};
    ghost use Rattle.enc_packet.specs.FullRows.{full_rows};
    ghost use Rattle.enc_frame.specs.Encoding.{Encoding};
    ghost use Rattle.enc_frame.specs.Drafted.{IsWhole, target_of};

    ghost Value = { Encoding };

    ghost coded = { Prim.hlevel (codes, tree_code) };

    ghost view = { λ e. record { setup = contents e.setup; shape = e.geom; state = state_of e.store; target = target_of e.store.started e.target } };

    ghost invariant = { λ e. (e.rows ≡ full_rows (contents e.setup).forest) × IsStore e.geom e.store × IsWhole e.geom e.whole × IsSized e.geom (frame_of e.coded) × IsWorkFor e.geom e.work × IsFrameOf e.geom e.target };
}

impl Encoder {
    /// An encoder of a stream with these headers, of which it keeps copies. No frame is coded yet. `NoFullTables` is found
    /// before any memory is taken.
    pub fn new(alloc: Global, ident: &Ident, setup: &Setup) -> Result<Encoder, EncFault>
        ensures tables { (result ≡ Err EncFault.NoFullTables) ↔ (full_row_of (contents setup.now).forest ≡ None) }
        ensures setup { IfOk result (λ e. e.setup ≡ contents setup.now) }
        ensures shape { IfOk result (λ e. e.shape ≡ shape_of (header_of ident.now)) }
        ensures state { IfOk result (λ e. e.state ≡ None) }
        ensures target { IfOk result (λ e. e.target ≡ None) }
    {
        let Some(rows) = Rows::new(&setup.forest) else {
            return Err(EncFault::NoFullTables);
        };
        Ok(Encoder::with_rows(alloc, ident, setup, rows)?)
    }

    // The same, of whose trees these rows hold all tokens.
    fn with_rows(alloc: Global, ident: &Ident, setup: &Setup, rows: Rows) -> Result<Encoder, NoMem>
        requires { rows ≡ full_rows (contents setup.now).forest }
        ensures setup { IfOk result (λ e. e.setup ≡ contents setup.now) }
        ensures shape { IfOk result (λ e. e.shape ≡ shape_of (header_of ident.now)) }
        ensures state { IfOk result (λ e. e.state ≡ None) }
        ensures target { IfOk result (λ e. e.target ≡ None) }
    {
        let shape = ident.shape();
        let geom = Geom::new(alloc, shape)?;
        let store = RefStore::new(alloc, shape)?;
        let setup = setup.clone()?;
        let made = lists(alloc, &geom)?;
        let (whole, coded, work, target) = made;
        Ok(Encoder {
            setup,
            geom,
            rows,
            store,
            whole,
            coded,
            work,
            target,
        })
    }

    // Takes a packet that was made for a target as a decoder does, and appends it. Where memory is lacking nothing has changed.
    fn take(&mut self, packet: &[u8], target: &Frame, out: &mut Vec<u8>) -> Result<(), NoMem>
        requires target { IsFrameOf self.old.shape target.now }
        requires says { IsOk (coded_in self.old.setup self.old.shape packet.now) }
        requires some { 0 < length packet.now }
        requires first { needs_frame packet.now ≡ true → is_some self.old.state ≡ true }
        ensures appended { OnOk result (out.new.items ≡ out.old.items ++ packet.now) }
        ensures leads { OnOk result (Leads self.old.setup self.old.shape self.old.state packet.now self.new.state) }
        ensures target { OnOk result (self.new.target ≡ Some target.now) }
        ensures kept { (self.new.setup ≡ self.old.setup) × (self.new.shape ≡ self.old.shape) }
        ensures memory { OnErr result ((self.new ≡ self.old) × (out.new.items ≡ out.old.items)) }
    {
        let (coded, work) = (&mut self.coded, &mut self.work);
        show(
            &mut self.store,
            &self.geom,
            &self.setup,
            packet,
            coded,
            work,
            out,
        )?;
        self.target.copy_from(target);
        Ok(())
    }

    /// Appends the packet of a key frame, which is near the target at this quantiser index whatever was coded before, and takes
    /// it: the frame that it shows is the next one to predict from. Where memory is lacking nothing has changed.
    pub fn key(&mut self, target: &Frame, qi: u8, out: &mut Vec<u8>) -> Result<(), NoMem>
        requires qi { qi < 64 }
        requires sized { IsFrameOf self.old.shape target.now }
        requires sealed { AreSealed target.now }
        ensures appended { out.new.items ≡ out.old.items ++ added out.old.items out.new.items }
        ensures near { OnOk result ((state : Option Pair) → Near self.old.setup self.old.shape state target.now qi (added out.old.items out.new.items)) }
        ensures step { OnOk result ((state : Option Pair) → Leads self.old.setup self.old.shape state (added out.old.items out.new.items) self.new.state) }
        ensures started { OnOk result (is_some self.new.state ≡ true) }
        ensures key { OnOk result (is_key (added out.old.items out.new.items) ≡ true) }
        ensures few { OnOk result ((0 < length (added out.old.items out.new.items)) × (length (added out.old.items out.new.items) < 2 ^ 30)) }
        ensures target { OnOk result (self.new.target ≡ Some target.now) }
        ensures kept { (self.new.setup ≡ self.old.setup) × (self.new.shape ≡ self.old.shape) }
        ensures memory { OnErr result ((self.new ≡ self.old) × (out.new.items ≡ out.old.items)) }
    {
        let from = Sources {
            geom: &self.geom,
            setup: &self.setup,
            rows: &self.rows,
            target,
            // An intra frame is predicted from none.
            prev: target,
            golden: target,
        };
        let head = Head {
            intra: true,
            qi,
            modes: &self.whole.modes,
            vectors: &self.whole.vectors,
        };
        let packet = from.packet(
            *out.allocator(),
            &head,
            &self.whole.flags,
            &mut self.work.bytes,
            &mut self.whole.coeffs,
        )?;
        self.take(&packet, target, out)?;
        Ok(())
    }

    /// Appends the packet of an inter frame, which is near the target at this quantiser index and predicted from the frames that
    /// were coded before, and takes it. Where memory is lacking nothing has changed.
    pub fn inter(&mut self, target: &Frame, qi: u8, out: &mut Vec<u8>) -> Result<(), NoMem>
        requires qi { qi < 64 }
        requires sized { IsFrameOf self.old.shape target.now }
        requires sealed { AreSealed target.now }
        requires state { is_some self.old.state ≡ true }
        ensures appended { out.new.items ≡ out.old.items ++ added out.old.items out.new.items }
        ensures near { OnOk result (Near self.old.setup self.old.shape self.old.state target.now qi (added out.old.items out.new.items)) }
        ensures step { OnOk result (Leads self.old.setup self.old.shape self.old.state (added out.old.items out.new.items) self.new.state) }
        ensures started { OnOk result (is_some self.new.state ≡ true) }
        ensures not_key { OnOk result (is_key (added out.old.items out.new.items) ≡ false) }
        ensures few { OnOk result ((0 < length (added out.old.items out.new.items)) × (length (added out.old.items out.new.items) < 2 ^ 30)) }
        ensures target { OnOk result (self.new.target ≡ Some target.now) }
        ensures kept { (self.new.setup ≡ self.old.setup) × (self.new.shape ≡ self.old.shape) }
        ensures memory { OnErr result ((self.new ≡ self.old) × (out.new.items ≡ out.old.items)) }
    {
        let alloc = *out.allocator();
        let (prev, golden) = (self.store.prev(), self.store.golden());
        let choice = choose(alloc, &self.geom, target, prev, golden)?;
        let from = Sources {
            geom: &self.geom,
            setup: &self.setup,
            rows: &self.rows,
            target,
            prev,
            golden,
        };
        let head = Head {
            intra: false,
            qi,
            modes: &choice.modes,
            vectors: &choice.vectors,
        };
        let packet = from.packet(
            alloc,
            &head,
            &self.whole.flags,
            &mut self.work.bytes,
            &mut self.whole.coeffs,
        )?;
        self.take(&packet, target, out)?;
        Ok(())
    }

    /// The frame that the last packet shows.
    pub fn frame(&self) -> &Frame
        requires { is_some self.now.state ≡ true }
        ensures value { IsSomeAnd self.now.state (λ pair. result.now ≡ pair.prev) }
        ensures sized { IsFrameOf self.now.shape result.now }
        ensures sealed { AreSealed result.now }
    {
        self.store.prev()
    }

    /// How far the frame that the last packet shows is from its target, over the samples of all planes.
    pub fn difference(&self) -> Diff
        requires { is_some self.now.state ≡ true }
        ensures max { IsSomeAnd self.now.target (λ target. IsSomeAnd self.now.state (λ pair. result.max ≡ greatest (differences (samples_of target) (samples_of pair.prev)))) }
        ensures sum { IsSomeAnd self.now.target (λ target. IsSomeAnd self.now.state (λ pair. result.sum ≡ total (differences (samples_of target) (samples_of pair.prev)))) }
    {
        compare(&self.target, self.store.prev())
    }
}

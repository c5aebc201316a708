// A decoder of frames, packet after packet (Theora I, 7.11).
ghost use Rattle.std.specs.Prelude.{◌≡◌, Err, IfErr, IfOk, IsSomeAnd, None, OnErr, OnOk, is_some, true};
ghost use Rattle.thr_ident.specs.Ident.{header_of};
ghost use Rattle.thr_ident.specs.Shape.{shape_of};
ghost use Rattle.vid_plane.specs.Frames.{IsFrameOf};
ghost use Rattle.thr_setup.specs.Setup.{contents};
ghost use Rattle.thr_frame.specs.Step.{step};
ghost use Rattle.thr_frame.specs.Decoding.{IsNext, IsShapeOf, kind_in};

use crate::coded::Coded;
use crate::decoding::{decode, lacks_frame};
use crate::kind::Kind;
use crate::work::Work;
use std::alloc::Global;
use std::marker::Model;
use thr_ident::Ident;
use thr_setup::Setup;
use vid_base::{NoMem, PacketFault};
use vid_geom::Geom;
use vid_plane::{Frame, RefStore};

/// Decodes the frames of a stream one after another. It keeps the previous and the golden frame, and makes all lists once, so
/// that a step takes no memory.
#[derive(Drop)]
pub struct Decoder {
    ident: Ident,
    setup: Setup,
    geom: Geom,
    store: RefStore,
    coded: Coded,
    work: Work,
}

impl Model for Decoder {
    ghost use Rattle.std.specs.Coded.{codes};
    ghost use Rattle.thr_huff.specs.TreeCode.{tree_code};
    ghost use Rattle.thr_setup.specs.Setup.{contents};
    ghost use Rattle.thr_frame.specs.Step.{state_of};
    ghost use Rattle.thr_frame.specs.Decoding.{Decoding, IsShapeOf};
    ghost use Rattle.thr_frame.specs.Ready.{AreLists, IsStore};

    ghost Value = { Decoding };

    ghost coded = { Prim.hlevel (codes, tree_code) };

    ghost view = { λ d. record { ident = d.ident; setup = contents d.setup; shape = d.geom; state = state_of d.store } };

    ghost invariant = { λ d. IsStore d.geom d.store × AreLists d.geom d.coded d.work };
}

impl Decoder {
    /// A decoder of a stream with these headers, of which it keeps copies. No frame is decoded yet.
    pub fn new(alloc: Global, ident: &Ident, setup: &Setup) -> Result<Decoder, NoMem>
        ensures ident { IfOk result (λ d. d.ident ≡ ident.now) }
        ensures setup { IfOk result (λ d. d.setup ≡ contents setup.now) }
        ensures shape { IfOk result (λ d. IsShapeOf ident.now d.shape) }
        ensures announced { IfOk result (λ d. d.shape ≡ shape_of (header_of ident.now)) }
        ensures state { IfOk result (λ d. d.state ≡ None) }
    {
        let shape = ident.shape();
        let geom = Geom::new(alloc, shape)?;
        let store = RefStore::new(alloc, shape)?;
        let coded = Coded::new(alloc, &geom)?;
        let work = Work::new(alloc, &geom)?;
        let setup = setup.clone()?;
        Ok(Decoder {
            ident: *ident,
            setup,
            geom,
            store,
            coded,
            work,
        })
    }

    /// Decodes the next packet: parses it whole, then rebuilds its frame. The first fault in reading order is `FirstNotKey`,
    /// where no frame was decoded before and the packet has no bytes or is that of an inter frame; and those of `parse_into`.
    /// After a fault nothing has changed. Takes no memory.
    pub fn step(&mut self, packet: &[u8]) -> Result<Kind, PacketFault>
        ensures kind { IfOk result (λ kind. kind ≡ kind_in packet.now) }
        ensures next { OnOk result (IsNext self.old packet.now self.new) }
        ensures fault { IfErr result (λ fault. step self.old.setup self.old.shape self.old.state packet.now ≡ Err fault) }
        ensures same { OnErr result (self.new ≡ self.old) }
    {
        if lacks_frame(self.store.started(), packet) {
            return Err(PacketFault::FirstNotKey);
        }
        if packet.is_empty() {
            return Ok(Kind::Repeat);
        }
        let intra = decode(
            &mut self.store,
            &self.geom,
            &self.setup,
            packet,
            &mut self.coded,
            &mut self.work,
        )?;
        Ok(if intra { Kind::Intra } else { Kind::Inter })
    }

    /// Whether a frame was decoded.
    pub fn started(&self) -> bool
        ensures { result ≡ is_some self.now.state }
    {
        self.store.started()
    }

    /// The frame that is shown: the one of the last step.
    pub fn frame(&self) -> &Frame
        requires { is_some self.now.state ≡ true }
        ensures value { IsSomeAnd self.now.state (λ pair. result.now ≡ pair.prev) }
        ensures sized { IsFrameOf self.now.shape result.now }
    {
        self.store.prev()
    }
}

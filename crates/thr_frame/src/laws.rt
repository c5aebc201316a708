// Laws of the definitions alone, for the layers above.
ghost use Rattle.std.specs.Prelude.{◌≡◌, ◌<◌, ◌+◌, ◌++◌, ℕ, Bool, true, false, not, List, [], All, Option, None, Some, Ok, Err, IsOk, is_some, length, slice_get, take};
ghost use Rattle.vid_base.specs.declared.fault.PacketFault.{PacketFault};
ghost use Rattle.vid_base.specs.declared.shape.Shape.{Shape};
ghost use Rattle.thr_setup.specs.Setup.{Contents};
ghost use Rattle.thr_ident.specs.declared.ident.Ident.{Ident};
ghost use Rattle.thr_frame.specs.Decoding.{IsShapeOf};
ghost use Rattle.thr_frame.specs.CodedFrame.{CodedFrame};
ghost use Rattle.thr_frame.specs.Parsed.{coded_in, frame_in, needs_frame};
ghost use Rattle.vid_plane.specs.declared.frame.Frame.{Frame};
ghost use Rattle.thr_frame.specs.Rebuilt.{Pair};
ghost use Rattle.thr_frame.specs.Step.{IsShownBehind, frames_from, frames_through, is_key, state_after, state_through, state_with, step};

/// Before the first packet nothing was decoded.
#[tactic(auto, unfolding(crate::specs::Step::state_after))]
pub fn decoding_begins_with_nothing()
    ensures state { (setup : Contents) (s : Shape) → state_after setup s None [] ≡ Ok None }
{}

/// A packet whose first two bits are 0 says the same whatever was decoded before it, and the first frame is intra. There is
/// nothing to run.
#[tactic(auto, using(crate::proofs::KeyLemmas::key_same, crate::proofs::KeyLemmas::intra_is, crate::proofs::KeyLemmas::first_intra))]
pub fn key_packets_need_no_frame()
    ensures same { (setup : Contents) (s : Shape) (started : Bool) (packet : List ℕ) → needs_frame packet ≡ false → frame_in setup s started packet ≡ frame_in setup s false packet }
    ensures intra { (setup : Contents) (s : Shape) (packet : List ℕ) (c : CodedFrame) → All (λ byte. byte < 256) packet → coded_in setup s packet ≡ Ok c → c.intra ≡ not (needs_frame packet) }
    ensures first { (setup : Contents) (s : Shape) (packet : List ℕ) (c : CodedFrame) → All (λ byte. byte < 256) packet → frame_in setup s false packet ≡ Ok (Some c) → c.intra ≡ true }
{}

/// A key packet's step is the same from every state: its frame is predicted from no other.
pub fn key_packets_begin_anew()
    ensures key { (setup : Contents) (s : Shape) (a b : Option Pair) (packet : List ℕ) → is_key packet ≡ true → step setup s a packet ≡ step setup s b packet }
{}

/// Which fault a packet has depends on the packet, the setup, the shape, and of the state on whether it is nothing.
pub fn faults_do_not_depend_on_frames()
    ensures fault { (setup : Contents) (s : Shape) (a b : Option Pair) (packet : List ℕ) (fault : PacketFault) → is_some a ≡ is_some b → step setup s a packet ≡ Err fault → step setup s b packet ≡ Err fault }
{}

/// The state behind packets is that behind the later ones from that behind the first ones.
pub fn states_follow_one_another()
    ensures join { (setup : Contents) (s : Shape) (state : Option Pair) (first others : List (List ℕ)) → state_after setup s state (first ++ others) ≡ state_through setup s state first others }
    ensures take { (setup : Contents) (s : Shape) (state : Option Pair) (packets : List (List ℕ)) (n : ℕ) (packet : List ℕ) → slice_get packets n ≡ Some packet
        → state_after setup s state (take (n + 1) packets) ≡ state_with setup s state (take n packets) packet }
    ensures frames { (setup : Contents) (s : Shape) (state : Option Pair) (packets : List (List ℕ)) → IsOk (state_after setup s state packets) → IsOk (frames_from setup s state packets) }
{}

/// Packets show a frame each: the previous one of the state behind the packet. More packets show the same frames first.
pub fn frames_follow_one_another()
    ensures count { (setup : Contents) (s : Shape) (state : Option Pair) (packets : List (List ℕ)) (frames : List Frame) → frames_from setup s state packets ≡ Ok frames → length frames ≡ length packets }
    ensures at { (setup : Contents) (s : Shape) (state : Option Pair) (packets : List (List ℕ)) (frames : List Frame) (n : ℕ) (frame : Frame)
        → frames_from setup s state packets ≡ Ok frames → slice_get frames n ≡ Some frame → IsShownBehind setup s state (take (n + 1) packets) frame }
    ensures begin { (setup : Contents) (s : Shape) (state : Option Pair) (packets : List (List ℕ)) (frames : List Frame) (n : ℕ)
        → frames_from setup s state packets ≡ Ok frames → frames_from setup s state (take n packets) ≡ Ok (take n frames) }
    ensures join { (setup : Contents) (s : Shape) (state : Option Pair) (first others : List (List ℕ))
        → frames_from setup s state (first ++ others) ≡ frames_through setup s state first others }
{}

/// A header says one shape, so decoders of one header have one.
pub fn headers_say_one_shape()
    ensures { (ident : Ident) (a b : Shape) → IsShapeOf ident a → IsShapeOf ident b → a ≡ b }
{}

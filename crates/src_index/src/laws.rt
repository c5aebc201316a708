//! Laws of the definitions that contracts here cite. These functions do nothing: their clauses name lemmas of `proofs/`,
//! which the proofs of crates above cite.
ghost use Rattle.std.specs.Prelude.{◌≡◌, ◌≤◌, ◌<◌, ◌+◌, ◌^◌, ◌∷◌, ℕ, List, All, Ok, IsOk, None, nat_lt, length, map};
ghost use Rattle.ogg_link.specs.Track.{is_key};
ghost use Rattle.src_index.specs.Index.{Index, frame_count, keys_of, quantisers_of};
ghost use Rattle.thr_ident.specs.Header.{Header};
ghost use Rattle.thr_ident.specs.Ident.{ident_of};
ghost use Rattle.thr_ident.specs.Comment.{comment_of};
ghost use Rattle.thr_setup.specs.Setup.{Contents, setup_of};
ghost use Rattle.thr_ident.specs.Shape.{shape_of};
ghost use Rattle.thr_frame.specs.Parsed.{frame_in};
ghost use Rattle.thr_frame.specs.Step.{state_after};
ghost use Rattle.src_index.specs.Track.{frames_of, frame_at, packet_at};
ghost use Rattle.ogg_link.specs.Spacing.{AreSpaced};
ghost use Rattle.src_index.specs.Checks.{AreFaultless};
ghost use Rattle.src_index.specs.Quantiser.{quantisers};
ghost use Rattle.src_index.specs.Gather.{IsIndexOf};
ghost use Rattle.src_index.specs.Judge.{Judged, Verdict};
ghost use Rattle.ogg_page.specs.Page.{Page, ArePages};
ghost use Rattle.ogg_page.specs.Packets.{packets_of};
ghost use Rattle.ogg_link.specs.Walk.{start};
ghost use Rattle.ogg_mux.specs.OutputPages.{Stream, paged};
ghost use Rattle.ogg_mux.specs.Walked.{HasRoom, GoesOver};

/// A file has one verdict, so whatever loading answers is all that can be said of it.
pub fn verdicts()
    ensures { (bytes : List ℕ) (v w : Verdict) → Judged bytes v → Judged bytes w → v ≡ w }
{}

/// Pages over which a walk goes without a fault, with packets that have none, are judged as a file with these packets. So are
/// the bytes of a stream: of its checks all pass but those on what the packets say.
pub fn written_pages()
    ensures pages { (header : Header) (bytes ident : List ℕ) (more : List (List ℕ)) (pages : List Page) → ArePages bytes pages → packets_of pages ≡ ident ∷ more
        → ident_of ident ≡ Ok header → GoesOver header.shift start pages → AreFaultless (ident ∷ more) → Judged bytes (Ok (ident ∷ more)) }
    ensures stream { (least : ℕ) (stream : Stream) (frames : List (List ℕ)) (header : Header) → HasRoom stream frames → length stream.ident < 65025
        → ident_of stream.ident ≡ Ok header → header.shift ≡ stream.shift → AreFaultless (stream.ident ∷ stream.comment ∷ stream.setup ∷ frames)
        → Judged (paged least stream frames) (Ok (stream.ident ∷ stream.comment ∷ stream.setup ∷ frames)) }
{}

/// What the index of a file says of its packets: how many frames there are, which of them are key frames, their quantisers,
/// and that each packet is short.
pub fn indexes()
    ensures count { (bytes : List ℕ) (packets : List (List ℕ)) (index : Index) → IsIndexOf bytes packets index → length packets ≡ frame_count index + 3 }
    ensures keys { (bytes : List ℕ) (packets : List (List ℕ)) (index : Index) → IsIndexOf bytes packets index → keys_of index ≡ map is_key (frames_of packets) }
    ensures quantisers { (bytes : List ℕ) (packets : List (List ℕ)) (index : Index) → IsIndexOf bytes packets index → quantisers_of index ≡ quantisers 0 (frames_of packets) }
    ensures short { (bytes : List ℕ) (packets : List (List ℕ)) (index : Index) → IsIndexOf bytes packets index → All (λ packet. length packet ≤ 2 ^ 30) (frames_of packets) }
{}

/// A file that is well-formed has faultless packets: at least three headers, and frames of which the first is a key frame and
/// each stands less than 2^shift behind its key frame. Quantisers are below 64.
pub fn faultless_tracks()
    ensures faultless { (bytes : List ℕ) (packets : List (List ℕ)) → Judged bytes (Ok packets) → (3 ≤ length packets) × AreFaultless packets }
    ensures headers { (packets : List (List ℕ)) → 3 ≤ length packets → AreFaultless packets → IsOk (ident_of (packet_at packets 0)) × IsOk (comment_of (packet_at packets 1)) × IsOk (setup_of (packet_at packets 2)) }
    ensures spaced { (packets : List (List ℕ)) (header : Header) → 3 ≤ length packets → AreFaultless packets → ident_of (packet_at packets 0) ≡ Ok header
        → AreSpaced header.shift (map is_key (frames_of packets)) }
    // Each frame packet says something by itself, and decodes from the state of those before it.
    ensures frames { (packets : List (List ℕ)) (header : Header) (contents : Contents) (n : ℕ) → 3 ≤ length packets → AreFaultless packets
        → ident_of (packet_at packets 0) ≡ Ok header → setup_of (packet_at packets 2) ≡ Ok contents
        → n < length (frames_of packets) → IsOk (frame_in contents (shape_of header) (nat_lt 0 n) (frame_at packets n)) }
    ensures decodes { (packets : List (List ℕ)) (header : Header) (contents : Contents) → 3 ≤ length packets → AreFaultless packets
        → ident_of (packet_at packets 0) ≡ Ok header → setup_of (packet_at packets 2) ≡ Ok contents
        → IsOk (state_after contents (shape_of header) None (frames_of packets)) }
    ensures quantisers { (before : ℕ) (packets : List (List ℕ)) → before < 64 → All (λ quantiser. quantiser < 64) (quantisers before packets) }
{}

/// The packets of a track have no fault where its three headers are sound, no packet is too long, there are not too many frames,
/// each frame decodes from the state of those before it, the first is a key frame, and each stands near its key frame.
pub fn sound_tracks()
    ensures { (ident comment setup : List ℕ) (frames : List (List ℕ)) (header : Header) (contents : Contents)
        → ident_of ident ≡ Ok header → IsOk (comment_of comment) → setup_of setup ≡ Ok contents
        → All (λ packet. length packet ≤ 2 ^ 30) (ident ∷ comment ∷ setup ∷ frames) → length frames ≤ 2 ^ 24
        → AreSpaced header.shift (map is_key frames) → IsOk (state_after contents (shape_of header) None frames)
        → AreFaultless (ident ∷ comment ∷ setup ∷ frames) }
{}

//! Laws of the definitions that contracts here cite. These functions do nothing: their clauses name lemmas of `proofs/`,
//! which the proofs of crates above cite.
ghost use Rattle.std.specs.Prelude.{◌≡◌, ◌∷◌, ℕ, List};
ghost use Rattle.ogg_page.specs.Page.{ArePages};
ghost use Rattle.ogg_page.specs.Packets.{packets_of};
ghost use Rattle.ogg_link.specs.Walk.{start};
ghost use Rattle.ogg_mux.specs.OutputPages.{Stream, paged, paged_list};
ghost use Rattle.ogg_mux.specs.Walked.{HasRoom, IsOfTrack, GoesOver};

/// The bytes of a stream are its pages, which carry its headers and these frame packets and nothing else; and a walk goes
/// over them to the end of the file without a fault. So it is with headers alone, and whatever body size closes a page.
pub fn pages_of_a_stream()
    ensures pages { (least : ℕ) (stream : Stream) (packets : List (List ℕ)) → HasRoom stream packets → ArePages (paged least stream packets) (paged_list least stream packets) }
    ensures packets { (least : ℕ) (stream : Stream) (packets : List (List ℕ)) → HasRoom stream packets
        → packets_of (paged_list least stream packets) ≡ stream.ident ∷ stream.comment ∷ stream.setup ∷ packets }
    ensures walked { (least : ℕ) (stream : Stream) (packets : List (List ℕ)) → IsOfTrack stream packets → GoesOver stream.shift start (paged_list least stream packets) }
{}

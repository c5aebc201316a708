//! Laws of the definitions that contracts here cite. These functions do nothing: their clauses name lemmas of `proofs/`,
//! which the proofs of crates above cite.
ghost use Rattle.std.specs.Prelude.{◌≡◌, ◌⊎◌, ◌≤◌, ◌<◌, ◌+◌, ◌-◌, ◌^◌, ◌++◌, ◌∷◌, [], ℕ, Bool, List, true, false, Some, None, Ok, length, min, sum};
ghost use Rattle.ogg_page.specs.Page.{Page};
ghost use Rattle.ogg_page.specs.Packets.{Piece, segments, packets_from, left_from};
ghost use Rattle.ogg_link.specs.Track.{granule_of};
ghost use Rattle.ogg_link.specs.declared.state.State.{State};
ghost use Rattle.ogg_link.specs.declared.state.Progress.{Progress};
ghost use Rattle.ogg_link.specs.Faultless.{Follows, Begins, stepped};
ghost use Rattle.ogg_link.specs.Flags.{is_continued};
ghost use Rattle.ogg_link.specs.Granules.{last_frame, settled};
ghost use Rattle.ogg_link.specs.Parts.{parts_of, lacing_if};
ghost use Rattle.ogg_link.specs.Progress.{after_piece, after_pieces, counted, one_more, is_alone, is_crowded, lacing_of, last_key_among, unfinished_behind, GoOn, Holds};
ghost use Rattle.ogg_link.specs.Walk.{start, step, ended, is_of_track};

/// A page of the track for which no check fails has no fault, and the parts of a page without a fault are told by its flag 1.
pub fn pages_without_a_fault()
    ensures first { (state : State) (page : Page) → Begins state page → step state page ≡ Ok (stepped state page) }
    ensures later { (state : State) (page : Page) → Follows state page → step state page ≡ Ok (stepped state page) }
    ensures flag { (state next : State) (page : Page) → step state page ≡ Ok next → is_of_track state page ≡ true
        → parts_of state.progress.unfinished page.lacing ≡ parts_of (is_continued page.flags) page.lacing }
    ensures position { (state : State) (base shift key : ℕ) → (state.base ≡ None) ⊎ (state.base ≡ Some base) → state.settles ≡ true → state.progress.last_key ≡ Some key
        → state.granule ≡ granule_of base shift key (last_frame state) → last_frame state - key < 2 ^ shift → settled state shift ≡ Ok (record state { base = Some base }) }
{}

/// Behind the headers nothing is crowded, nor is one lacing value more where at most two packets have ended. A packet
/// below 65,025 bytes can stand alone on a page.
pub fn headers_on_pages()
    ensures behind { (packets : ℕ) (lacing : List ℕ) → 3 ≤ packets → is_crowded packets lacing ≡ false }
    ensures one_more { (known : Progress) (lacing body : List ℕ) (n : ℕ) → known.packets ≤ 2 ^ 64 - 1 → (after_pieces known (segments lacing body)).packets ≤ 2
        → is_crowded known.packets (lacing ++ n ∷ []) ≡ false }
    ensures alone { (size : ℕ) → is_alone (lacing_of size) ≡ true }
    ensures fits { (size : ℕ) → size < 65025 → length (lacing_of size) ≤ 255 }
    ensures counted { (size : ℕ) → sum (lacing_of size) ≡ size }
{}

/// What is known of packets behind pieces: how many have ended, the last key frame among them, whether one is unfinished and
/// how it begins.
pub fn packets_of_pieces()
    ensures counted { (known : Progress) (front : List ℕ) (pieces : List Piece) → known.packets ≤ 2 ^ 64 - 1
        → (after_pieces known pieces).packets ≡ min (known.packets + length (packets_from front pieces)) (2 ^ 64 - 1) }
    ensures last_key { (known : Progress) (front lacing body : List ℕ) → sum lacing ≡ length body → Holds known front
        → (after_pieces known (segments lacing body)).last_key ≡ last_key_among known.packets known.last_key (packets_from front (segments lacing body)) }
    ensures unfinished { (known : Progress) (lacing body : List ℕ) → (after_pieces known (segments lacing body)).unfinished ≡ unfinished_behind known.unfinished lacing }
    ensures holds { (known : Progress) (front : List ℕ) (pieces : List Piece) → Holds known front → GoOn pieces
        → Holds (after_pieces known pieces) (left_from front pieces) }
{}

/// The book by packets: a piece that ends counts its packet, and one behind which its packet goes on counts nothing.
pub fn packets_of_one_piece()
    ensures ends { (known : Progress) (front bytes : List ℕ) → Holds known front → after_piece known (record { bytes = bytes; ends = true })
        ≡ record { packets = one_more known.packets; unfinished = false; key = false; last_key = (counted known.packets known.last_key (front ++ bytes)).last_key } }
    ensures holds { (known : Progress) (front bytes : List ℕ) (ends : Bool) → Holds known front → (ends ≡ false → 0 < length bytes)
        → Holds (after_piece known (record { bytes = bytes; ends = ends })) (left_from front (record { bytes = bytes; ends = ends } ∷ [])) }
{}

/// From page to page a walk knows the packets of the track, and what it knows of the unfinished one is so. Granule positions
/// change nothing of it, and at the end three packets have ended.
pub fn packets_of_a_walk()
    ensures start { Holds start.progress [] }
    ensures known { (state next : State) (page : Page) → step state page ≡ Ok next
        → next.progress ≡ after_pieces state.progress (segments (lacing_if (is_of_track state page) page.lacing) page.body) }
    ensures holds { (state next : State) (page : Page) (front : List ℕ) → sum page.lacing ≡ length page.body → step state page ≡ Ok next → Holds state.progress front
        → Holds next.progress (left_from front (segments (lacing_if (is_of_track state page) page.lacing) page.body)) }
    ensures settled { (state next : State) (shift : ℕ) → settled state shift ≡ Ok next → next.progress ≡ state.progress }
    ensures ended { (state next : State) → ended state ≡ Ok next → 3 ≤ state.progress.packets }
{}

// Laws of the definitions that contracts here cite. The functions do nothing: their clauses name lemmas of `proofs/`, which the
// proofs of crates above cite.
ghost use Rattle.std.specs.Prelude.{◌≡◌, ℕ, ◌++◌, ◌∷◌, [], List, Option};
ghost use Rattle.thr_ident.specs.declared.ident.Ident.{Ident as Header};
ghost use Rattle.vid_base.specs.declared.shape.Shape.{Shape as Sizes};
ghost use Rattle.vid_plane.specs.Frames.{IsFrameOf};
ghost use Rattle.vid_plane.specs.declared.frame.Frame.{Frame as Planes};
ghost use Rattle.y4m_io.specs.declared.head.Head.{Head};
ghost use Rattle.y4m_io.specs.Pictures.{Samples, IsPicture, IsPictureOf, IsSize};
ghost use Rattle.y4m_io.specs.Crop.{shape_of};
ghost use Rattle.y4m_io.specs.declared.fault.Y4mWhy.{Y4mWhy as Why};
ghost use Rattle.y4m_io.specs.Progress.{Progress, Follow, IsStart};
ghost use Rattle.y4m_io.specs.Reading.{Departure, HasBadHead, IsY4m};
ghost use Rattle.y4m_io.specs.Y4m.{frame_text, head_text, y4m_of};

/// Each Theora stream has a picture size, and a frame of its shape is of the shape that its header says.
pub fn pictures_of_streams()
    ensures size { (i : Header) → IsSize i.picw i.pich i.pf }
    ensures frame { (i : Header) (s : Sizes) (f : Planes) → s.fmbw ≡ i.fmbw → s.fmbh ≡ i.fmbh → s.pf ≡ i.pf → IsFrameOf s f → IsFrameOf (shape_of i) f }
{}

/// What has a sample at each place of a size is a picture.
pub fn pictures_by_size()
    ensures { (w h pf : ℕ) (p : Samples) → IsSize w h pf → IsPictureOf w h pf p → IsPicture p }
{}

/// A text without pictures is its head, and one more picture comes to its end.
pub fn texts_by_pictures()
    ensures none { (head : Head) → y4m_of head [] ≡ head_text head }
    ensures more { (head : Head) (pictures : List Samples) (p : Samples) → y4m_of head (pictures ++ p ∷ []) ≡ y4m_of head pictures ++ frame_text p }
{}

/// What follows the head of a stream is the stream; and a text is one stream, or departs in its head in one way.
pub fn streams_of_a_text()
    ensures started { (bytes : List ℕ) (p : Progress) (pictures : List Samples) (bad : Option Departure) → IsStart bytes p → Follow p bytes pictures bad → IsY4m bytes p.head pictures bad }
    ensures one { (bytes : List ℕ) (h k : Head) (ps qs : List Samples) (bad worse : Option Departure) → IsY4m bytes h ps bad → IsY4m bytes k qs worse → (h ≡ k) × (ps ≡ qs) × (bad ≡ worse) }
    ensures none { (bytes : List ℕ) (why : Why) (h : Head) (ps : List Samples) (bad : Option Departure) → HasBadHead bytes why → ¬ IsY4m bytes h ps bad }
{}

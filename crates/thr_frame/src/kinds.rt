// What each block is predicted from (Theora I, 7.4).
ghost use Rattle.std.specs.Prelude.{◌≡◌, ◌<◌, ◌≤◌, ◌++◌, ℕ, All, length, map, take};
ghost use Rattle.vid_geom.specs.CodedOrder.{order_of};
ghost use Rattle.vid_geom.specs.MacroBlocks.{macro_blocks};
ghost use Rattle.thr_frame.specs.CodedFrame.{kind_of, kinds_of};
ghost use Rattle.thr_frame.specs.Kinds.{put_same};

use crate::coded::INTRA;
use vid_geom::Geom;

// The modes that predict from the golden frame.
const GOLDEN: u8 = 5;

const GOLDEN_MOVED: u8 = 6;

// What a mode predicts from: 0 nothing, 1 the previous frame, 2 the golden frame.
fn kind_of(mode: u8) -> u8
    ensures { result ≡ kind_of mode }
{
    match mode {
        INTRA => 0,
        GOLDEN | GOLDEN_MOVED => 2,
        _ => 1,
    }
}

// Gives blocks one kind.
fn put_kind(kinds: &mut [u8], places: &[u32], kind: u8)
    requires { All (λ place. place < length kinds.old) places.now }
    ensures { kinds.new ≡ put_same kind places.now kinds.old }
{
    'places: for k in 0..places.len() {
        kinds[places[k] as usize] = kind;
    }
}

/// Makes the reference kind of each block in coded order from the modes of the macro blocks: 0 is nothing, 1 the previous
/// frame, 2 the golden frame. Each entry is written.
pub fn fill_kinds(geom: &Geom, modes: &[u8], kinds: &mut [u8])
    requires modes { length modes.now ≡ length (macro_blocks geom.now) }
    requires kinds { length kinds.old ≡ length (order_of geom.now) }
    ensures { kinds.new ≡ kinds_of geom.now modes.now }
{
    'macro_blocks: for m in 0..geom.macro_blocks() {
        let numbers = geom.macro_block(m);
        let kind = kind_of(modes[m as usize]);
        let count = usize::from(numbers.chroma_count);
        put_kind(kinds, &numbers.luma, kind);
        put_kind(kinds, &numbers.cb[..count], kind);
        put_kind(kinds, &numbers.cr[..count], kind);
    }
}

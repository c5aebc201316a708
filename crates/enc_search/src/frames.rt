// The frames that are compared, and the luma blocks of their macro blocks (own).
ghost use Rattle.std.specs.Prelude.{◌≡◌, ◌+◌, ◌*◌, ◌<◌, ◌≤◌, All, IsSomeAnd, length, map, slice_get};
ghost use Rattle.vid_geom.specs.MacroBlocks.{macro_blocks};
ghost use Rattle.vid_plane.specs.Frames.{IsFrameOf};
ghost use Rattle.vid_plane.specs.Picture.{pixel};
ghost use Rattle.thr_frame.specs.Painted.{AreSealed};
ghost use Rattle.thr_recon.specs.Rebuilt.{block_of};
ghost use Rattle.enc_search.specs.Found.{IsLuma};
ghost use Rattle.enc_search.specs.Searched.{block_samples};

use vid_geom::{Block, Geom};
use vid_plane::{Frame, Plane};

/// The frame that is to be coded, and those that it is predicted from.
#[derive(Clone, Copy)]
pub(crate) struct Frames<'a> {
    pub geom: &'a Geom,
    pub target: &'a Frame,
    pub prev: &'a Frame,
    pub golden: &'a Frame,
    ghost target_sized: { IsFrameOf geom.now target.now },
    ghost prev_sized: { IsFrameOf geom.now prev.now },
    ghost golden_sized: { IsFrameOf geom.now golden.now },
    ghost prev_sealed: { AreSealed prev.now },
    ghost golden_sealed: { AreSealed golden.now },
}

/// The luma of a macro block that predictions are compared with.
#[derive(Clone, Copy)]
pub(crate) struct Search<'a> {
    pub frames: Frames<'a>,
    pub blocks: [Block; 4],
    /// The samples of these blocks, the lowest row first.
    pub wanted: &'a [[[u8; 8]; 8]; 4],
    ghost four: { length blocks ≡ 4 },
    ghost inside: { All (IsLuma frames.geom.now) blocks },
    ghost read: { wanted.now ≡ map (λ b. block_of (block_samples frames.target.now b)) blocks },
}

/// The luma blocks of a macro block, in raster order from the lower left.
pub(crate) fn luma_blocks(geom: &Geom, m: u32) -> [Block; 4]
    requires { m < length (macro_blocks geom.now) }
    ensures value { IsSomeAnd (slice_get (macro_blocks geom.now) m) (λ area. result ≡ area.luma) }
    ensures inside { All (IsLuma geom.now) result }
{
    let places = geom.luma_places(m);
    [
        geom.at(places[0]),
        geom.at(places[1]),
        geom.at(places[2]),
        geom.at(places[3]),
    ]
}

/// Eight rows of eight samples, from column x and row y on.
fn rows(plane: &Plane, x: u32, y: u32) -> [[u8; 8]; 8]
    requires columns { x + 8 ≤ plane.now.width }
    requires rows { y + 8 ≤ plane.now.height }
    ensures { result ≡ block_of (λ u v. pixel plane.now (x + u) (y + v)) }
{
    let _height = plane.height();
    [
        plane.row8(x, y),
        plane.row8(x, y + 1),
        plane.row8(x, y + 2),
        plane.row8(x, y + 3),
        plane.row8(x, y + 4),
        plane.row8(x, y + 5),
        plane.row8(x, y + 6),
        plane.row8(x, y + 7),
    ]
}

impl Frames<'_> {
    // The samples of a luma block of the frame that is to be coded, the lowest row first.
    fn wanted(&self, block: Block) -> [[u8; 8]; 8]
        requires { IsLuma self.now.geom.now block }
        ensures { result ≡ block_of (block_samples self.now.target.now block) }
    {
        rows(&self.target.y, 8 * block.col, 8 * block.row)
    }

    /// The samples of four luma blocks of the frame that is to be coded, each the lowest row first.
    pub(crate) fn wanted_of_four(&self, blocks: [Block; 4]) -> [[[u8; 8]; 8]; 4]
        requires { All (IsLuma self.now.geom.now) blocks }
        ensures { result ≡ map (λ b. block_of (block_samples self.now.target.now b)) blocks }
    {
        [
            self.wanted(blocks[0]),
            self.wanted(blocks[1]),
            self.wanted(blocks[2]),
            self.wanted(blocks[3]),
        ]
    }
}

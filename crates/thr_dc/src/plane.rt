// The blocks of a plane (Theora I, 7.8). The methods stand elsewhere, since the definitions that their contracts cite speak
// of this struct.
ghost use Rattle.thr_dc.specs.Planes.{IsPlane};

use vid_geom::Geom;

/// A plane, and what is known of its blocks besides their values.
#[derive(Clone, Copy)]
pub(crate) struct Plane<'a> {
    pub(crate) geom: &'a Geom,
    pub(crate) flags: &'a [bool],
    pub(crate) kinds: &'a [u8],
    pub(crate) pli: u8,
    /// How many blocks stand in a row.
    pub(crate) columns: u32,
    pub(crate) blocks: u32,
    ghost is_plane: { IsPlane geom.now flags.now kinds.now pli columns blocks },
}

/// A block of a plane: its place in raster order, and the column and the row that it stands in.
#[derive(Clone, Copy)]
pub(crate) struct Spot {
    pub(crate) place: u32,
    pub(crate) column: u32,
    pub(crate) row: u32,
}

/// What a coded block gives to the prediction of others.
#[derive(Clone, Copy)]
pub(crate) struct CodedBlock {
    pub(crate) kind: u8,
    pub(crate) value: i16,
}

/// The blocks around a block but for the one to its lower right, each where there is one and it is coded. The block to the
/// right of a block that was looked at has them at hand, so that none of the three is looked up again.
#[derive(Clone, Copy)]
pub(crate) struct Known {
    pub(crate) left: Option<CodedBlock>,
    pub(crate) lower_left: Option<CodedBlock>,
    pub(crate) below: Option<CodedBlock>,
}

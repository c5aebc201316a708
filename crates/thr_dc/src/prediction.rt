// The DC predictor of a block of a plane (Theora I, 7.8.1).
ghost use Rattle.std.specs.Prelude.{◌≡◌, ◌<◌, ◌≤◌, ℕ, IfSome, None, get_or, length, take, true, unsigned_abs};
ghost use Rattle.vid_geom.specs.CodedOrder.{block_columns, block_rows, order_of, place_of, plane_blocks};
ghost use Rattle.thr_dc.specs.Frames.{block_at, raster_block};
ghost use Rattle.thr_dc.specs.Planes.{AreLast, IsKnown, IsSpot, at_lower_right, coded, found};
ghost use Rattle.thr_dc.specs.Prediction.{counted, last_of, predicted};
ghost use Rattle.thr_dc.specs.Predictor.{from_neighbours};
ghost use Rattle.thr_dc.specs.Walks.{blocks_of};

use crate::plane::{CodedBlock, Known, Plane, Spot};
use crate::predictor::from_neighbours;
use vid_geom::{Block, Geom};

/// The DC value of a block, where it counts for a kind.
fn value_for(block: Option<CodedBlock>, kind: u8) -> Option<i16>
    ensures { result ≡ counted kind (coded block) }
{
    match block {
        Some(block) => {
            if block.kind == kind {
                Some(block.value)
            } else {
                None
            }
        }
        None => None,
    }
}

/// What the blocks around a block predict, if one counts for a kind.
fn around(known: Known, lower_right: Option<CodedBlock>, kind: u8) -> Option<i32>
    ensures value { result ≡ from_neighbours (counted kind (coded known.left)) (counted kind (coded known.lower_left)) (counted kind (coded known.below)) (counted kind (coded lower_right)) }
    ensures within { IfSome result (λ p. unsigned_abs p ≤ 32896) }
{
    from_neighbours(
        value_for(known.left, kind),
        value_for(known.lower_left, kind),
        value_for(known.below, kind),
        value_for(lower_right, kind),
    )
}

impl<'a> Plane<'a> {
    /// A plane of a frame.
    pub(crate) fn new(geom: &'a Geom, flags: &'a [bool], kinds: &'a [u8], pli: u8) -> Plane<'a>
        requires plane { pli < 3 }
        requires flags { length flags.now ≡ length (order_of geom.now) }
        requires kinds { length kinds.now ≡ length (order_of geom.now) }
        ensures geom { result.geom.now ≡ geom.now }
        ensures flags { result.flags.now ≡ flags.now }
        ensures kinds { result.kinds.now ≡ kinds.now }
        ensures plane { result.pli ≡ pli }
    {
        let shape = geom.shape();
        let columns = shape.width(pli) / 8;
        Plane {
            geom,
            flags,
            kinds,
            pli,
            columns,
            blocks: columns * (shape.height(pli) / 8),
        }
    }
}

impl Plane<'_> {
    /// The coded place of a block by its place in raster order.
    fn coded_place(&self, place: u32) -> usize
        requires { place < self.now.blocks }
        ensures value { result ≡ place_of self.now.geom.now (raster_block self.now.geom.now self.now.pli place) }
        ensures below { result < length (order_of self.now.geom.now) }
    {
        self.coded_place_at(place % self.columns, place / self.columns)
    }

    /// The coded place of the block in a column and a row: this divides nothing.
    pub(crate) fn coded_place_at(&self, column: u32, row: u32) -> usize
        requires column { column < block_columns self.now.geom.now self.now.pli }
        requires row { row < block_rows self.now.geom.now self.now.pli }
        ensures value { result ≡ place_of self.now.geom.now (block_at self.now.pli column row) }
        ensures below { result < length (order_of self.now.geom.now) }
    {
        let block = Block {
            pli: self.pli,
            col: column,
            row,
        };
        self.geom.place(block) as usize
    }

    /// The block at a coded place, if it is coded.
    fn block(&self, values: &[[i16; 64]], coded_place: usize) -> Option<CodedBlock>
        requires below { coded_place < length (order_of self.now.geom.now) }
        requires values { length values.now ≡ length (order_of self.now.geom.now) }
        ensures { (place : ℕ) → place < plane_blocks self.now.geom.now self.now.pli → coded_place ≡ place_of self.now.geom.now (raster_block self.now.geom.now self.now.pli place) →
            coded result ≡ get_or (blocks_of self.now values.now) place None }
    {
        if self.flags[coded_place] {
            Some(CodedBlock {
                kind: self.kinds[coded_place],
                value: values[coded_place][0],
            })
        } else {
            None
        }
    }

    /// The block in a column and a row, where there is such a block and it is coded.
    fn neighbour(
        &self,
        values: &[[i16; 64]],
        there: bool,
        column: u32,
        row: u32,
    ) -> Option<CodedBlock>
        requires column { there ≡ true → column < block_columns self.now.geom.now self.now.pli }
        requires row { there ≡ true → row < block_rows self.now.geom.now self.now.pli }
        requires values { length values.now ≡ length (order_of self.now.geom.now) }
        ensures { coded result ≡ found self.now.columns (blocks_of self.now values.now) there column row }
    {
        if there {
            self.block(values, self.coded_place_at(column, row))
        } else {
            None
        }
    }

    /// The block to the lower right of the one in a column and a row.
    pub(crate) fn lower_right(
        &self,
        values: &[[i16; 64]],
        column: u32,
        row: u32,
    ) -> Option<CodedBlock>
        requires column { column < block_columns self.now.geom.now self.now.pli }
        requires row { row < block_rows self.now.geom.now self.now.pli }
        requires values { length values.now ≡ length (order_of self.now.geom.now) }
        ensures { coded result ≡ at_lower_right self.now.columns (blocks_of self.now values.now) column row }
    {
        let has_right = column + 1 < self.columns;
        let below = row.saturating_sub(1);
        self.neighbour(values, row > 0 && has_right, column + 1, below)
    }

    /// The other blocks around it.
    fn looked_up(&self, values: &[[i16; 64]], column: u32, row: u32) -> Known
        requires column { column < block_columns self.now.geom.now self.now.pli }
        requires row { row < block_rows self.now.geom.now self.now.pli }
        requires values { length values.now ≡ length (order_of self.now.geom.now) }
        ensures { IsKnown self.now.columns (blocks_of self.now values.now) column row result }
    {
        let has_left = column > 0;
        let has_below = row > 0;
        let left = column.saturating_sub(1);
        let below = row.saturating_sub(1);
        Known {
            left: self.neighbour(values, has_left, left, row),
            lower_left: self.neighbour(values, has_left && has_below, left, below),
            below: self.neighbour(values, has_below, column, below),
        }
    }

    /// The same, looked up only where they are not carried.
    pub(crate) fn known(
        &self,
        values: &[[i16; 64]],
        column: u32,
        row: u32,
        carried: Option<Known>,
    ) -> Known
        requires column { column < block_columns self.now.geom.now self.now.pli }
        requires row { row < block_rows self.now.geom.now self.now.pli }
        requires carried { IfSome carried (IsKnown self.now.columns (blocks_of self.now values.now) column row) }
        requires values { length values.now ≡ length (order_of self.now.geom.now) }
        ensures { IsKnown self.now.columns (blocks_of self.now values.now) column row result }
    {
        match carried {
            Some(known) => known,
            None => self.looked_up(values, column, row),
        }
    }

    /// The DC value of a block, where it counts for a kind.
    fn counted(&self, values: &[[i16; 64]], place: u32, kind: u8) -> Option<i16>
        requires place { place < self.now.blocks }
        requires values { length values.now ≡ length (order_of self.now.geom.now) }
        ensures { result ≡ counted kind (get_or (blocks_of self.now values.now) place None) }
    {
        value_for(self.block(values, self.coded_place(place)), kind)
    }

    /// The last value of a kind before a place. From one block of a kind to the next no block is asked twice.
    fn last(&self, values: &[[i16; 64]], before: u32, kind: u8) -> i16
        requires place { before ≤ self.now.blocks }
        requires values { length values.now ≡ length (order_of self.now.geom.now) }
        ensures { result ≡ last_of kind (take before (blocks_of self.now values.now)) }
    {
        'places: for place in (0..before).rev() {
            if let Some(value) = self.counted(values, place, kind) {
                return value;
            }
        }
        0
    }

    /// The same, searched for only where the last values of all kinds are not carried.
    fn last_value(
        &self,
        values: &[[i16; 64]],
        before: u32,
        lasts: Option<&[i16; 256]>,
        kind: u8,
    ) -> i16
        requires place { before ≤ self.now.blocks }
        requires lasts { IfSome lasts (λ lasts. AreLast (take before (blocks_of self.now values.now)) lasts.now) }
        requires values { length values.now ≡ length (order_of self.now.geom.now) }
        ensures { result ≡ last_of kind (take before (blocks_of self.now values.now)) }
    {
        match lasts {
            Some(lasts) => lasts[kind as usize],
            None => self.last(values, before, kind),
        }
    }

    /// The predictor of a block, if it has this kind, from the blocks around it and the last values of the kinds.
    pub(crate) fn predictor(
        &self,
        values: &[[i16; 64]],
        spot: Spot,
        known: Known,
        lower_right: Option<CodedBlock>,
        lasts: Option<&[i16; 256]>,
        kind: u8,
    ) -> i32
        requires place { spot.place < self.now.blocks }
        requires spot { IsSpot self.now.columns spot }
        requires known { IsKnown self.now.columns (blocks_of self.now values.now) spot.column spot.row known }
        requires lower_right { coded lower_right ≡ at_lower_right self.now.columns (blocks_of self.now values.now) spot.column spot.row }
        requires lasts { IfSome lasts (λ lasts. AreLast (take spot.place (blocks_of self.now values.now)) lasts.now) }
        requires values { length values.now ≡ length (order_of self.now.geom.now) }
        ensures value { result ≡ predicted (block_columns self.now.geom.now self.now.pli) (take spot.place (blocks_of self.now values.now)) kind }
        ensures within { unsigned_abs result ≤ 32896 }
    {
        match around(known, lower_right, kind) {
            Some(predictor) => predictor,
            None => i32::from(self.last_value(values, spot.place, lasts, kind)),
        }
    }
}

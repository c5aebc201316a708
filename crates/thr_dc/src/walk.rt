// The walk through a plane (Theora I, 7.8.2).
ghost use Rattle.std.specs.Prelude.{◌≡◌, ◌<◌, ◌+◌, ℕ, IfSome, List, None, Option, [], get_or, length, pos, take};
ghost use Rattle.std.specs.Option.{unwrap_or};
ghost use Rattle.vid_geom.specs.CodedOrder.{block_columns, block_rows, order_of};
ghost use Rattle.thr_dc.specs.Blocks.{Coded};
ghost use Rattle.thr_dc.specs.Changes.{plane_by, value_by};
ghost use Rattle.thr_dc.specs.Planes.{AreLast, IsAlong, IsKnown, IsSpot, left_of};
ghost use Rattle.thr_dc.specs.Prediction.{by_new, by_old, changed, counted};
ghost use Rattle.thr_dc.specs.Walks.{Replaces, Rewrites, blocks_of};

use crate::change::Change;
use crate::plane::{CodedBlock, Known, Plane, Spot};

/// Makes the value of a block the last one of its kind, where what is known to the block to its right says that it is coded.
fn keep_last(lasts: &mut [i16; 256], right: Option<Known>)
    ensures { (kind : ℕ) → kind < 256 → get_or lasts.new kind (pos 0) ≡ unwrap_or (counted kind (left_of right)) (get_or lasts.old kind (pos 0)) }
{
    if let Some(known) = right {
        if let Some(block) = known.left {
            lasts[block.kind as usize] = block.value;
        }
    }
}

impl Plane<'_> {
    /// Changes a block, to which the blocks around it but for the lower right one may be carried, and the last values of the
    /// kinds. Gives what is carried to the block to its right: where this one is not coded nothing, since nothing was looked
    /// up for it.
    fn change_block(
        &self,
        values: &mut [[i16; 64]],
        spot: Spot,
        carried: Option<Known>,
        lasts: Option<&[i16; 256]>,
        change: Change,
    ) -> Option<Known>
        requires place { spot.place < self.now.blocks }
        requires spot { IsSpot self.now.columns spot }
        requires row { spot.row < block_rows self.now.geom.now self.now.pli }
        requires carried { IfSome carried (IsKnown self.now.columns (blocks_of self.now values.old) spot.column spot.row) }
        requires lasts { IfSome lasts (λ lasts. AreLast (take spot.place (blocks_of self.now values.old)) lasts.now) }
        requires values { length values.old ≡ length (order_of self.now.geom.now) }
        ensures replaces { Replaces self.now spot.place (changed (value_by change) (block_columns self.now.geom.now self.now.pli) (take spot.place (blocks_of self.now values.old)) (get_or (blocks_of self.now values.old) spot.place None)) values.old values.new }
        ensures carried { IfSome result (λ known. spot.column + 1 < self.now.columns → IsKnown self.now.columns (blocks_of self.now values.new) (spot.column + 1) spot.row known) }
        ensures left { left_of result ≡ get_or (blocks_of self.now values.new) spot.place None }
    {
        let coded_place = self.coded_place_at(spot.column, spot.row);
        if !self.flags[coded_place] {
            return None;
        }
        let known = self.known(values, spot.column, spot.row, carried);
        let lower_right = self.lower_right(values, spot.column, spot.row);
        let kind = self.kinds[coded_place];
        let predictor = self.predictor(values, spot, known, lower_right, lasts, kind);
        let value = change.value(values[coded_place][0], predictor);
        values[coded_place][0] = value;
        Some(Known {
            left: Some(CodedBlock { kind, value }),
            lower_left: known.below,
            below: lower_right,
        })
    }

    /// The column and the row of the next block, and what is carried to it: this divides nothing. Nothing is carried to the
    /// first block of a row.
    fn next(&self, column: u32, row: u32, right: Option<Known>) -> (u32, u32, Option<Known>)
        requires { row < self.now.blocks }
        ensures along { (place : ℕ) → IsAlong self.now.columns place column row → IsAlong self.now.columns (place + 1) result.0 result.1 }
        ensures carried { (blocks : List (Option Coded)) → IfSome right (λ known. column + 1 < self.now.columns → IsKnown self.now.columns blocks (column + 1) row known) →
            IfSome result.2 (IsKnown self.now.columns blocks result.0 result.1) }
    {
        if column < self.columns - 1 {
            (column + 1, row, right)
        } else {
            (0, row + 1, None)
        }
    }

    /// Changes each block by the new values before it. What was seen is carried on, since a look-up may miss the cache and a
    /// search for a last value divides; there is a last value for each number that a kind can be.
    fn change_upwards(&self, values: &mut [[i16; 64]], change: Change)
        requires { length values.old ≡ length (order_of self.now.geom.now) }
        ensures { Rewrites (λ w blocks. by_new (value_by change) w [] blocks) self.now.geom.now self.now.flags.now self.now.kinds.now self.now.pli values.old values.new }
    {
        let mut column = 0;
        let mut row = 0;
        let mut carried = None;
        let mut lasts = [0; 256];
        'places: for place in 0..self.blocks {
            let spot = Spot { place, column, row };
            let right = self.change_block(values, spot, carried, Some(&lasts), change);
            keep_last(&mut lasts, right);
            let (next_column, next_row, next_carried) = self.next(column, row, right);
            column = next_column;
            row = next_row;
            carried = next_carried;
        }
    }

    /// Changes each block by the old values before it: from the last to the first, so that these still stand there.
    fn change_downwards(&self, values: &mut [[i16; 64]], change: Change)
        requires { length values.old ≡ length (order_of self.now.geom.now) }
        ensures { Rewrites (λ w blocks. by_old (value_by change) w [] blocks) self.now.geom.now self.now.flags.now self.now.kinds.now self.now.pli values.old values.new }
    {
        'places: for place in (0..self.blocks).rev() {
            let spot = Spot {
                place,
                column: place % self.columns,
                row: place / self.columns,
            };
            self.change_block(values, spot, None, None, change);
        }
    }

    /// Changes the blocks of the plane.
    pub(crate) fn change(&self, values: &mut [[i16; 64]], change: Change)
        requires { length values.old ≡ length (order_of self.now.geom.now) }
        ensures { Rewrites (plane_by change) self.now.geom.now self.now.flags.now self.now.kinds.now self.now.pli values.old values.new }
    {
        match change {
            Change::Undo => self.change_upwards(values, change),
            Change::Apply => self.change_downwards(values, change),
            Change::Limit => self.change_upwards(values, change),
        }
    }
}

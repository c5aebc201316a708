// A frame rebuilt from what its packet says (Theora I, 7.9.4, 7.10 and 7.11).
ghost use Rattle.std.specs.Prelude.{◌≡◌, ◌<◌, ◌||◌, IsTrue, true};
ghost use Rattle.std.specs.Bool.{OnFalse, OnTrue};
ghost use Rattle.vid_plane.specs.Picture.{sealed_picture};
ghost use Rattle.vid_plane.specs.Frames.{AreOf, IsFrameOf, IsPlaneOf, sealed_frame};
ghost use Rattle.thr_setup.specs.Setup.{contents};
ghost use Rattle.thr_frame.specs.CodedFrame.{IsCodedFrame, frame_of};
ghost use Rattle.thr_frame.specs.Rebuilt.{pair_in, rebuilt_frame, unfiltered, unfiltered_plane};
ghost use Rattle.thr_frame.specs.Painted.{AreSealed, ShowsUncoded};
ghost use Rattle.thr_frame.specs.Sources.{refs_of};
ghost use Rattle.thr_frame.specs.Step.{behind};

use crate::coded::Coded;
use crate::rebuild::matrices;
use crate::sources::{PlaneSources, Sources};
use thr_loop::filter;
use thr_setup::Setup;
use vid_geom::Geom;
use vid_plane::{Frame, Plane, RefStore};

// Rebuilds the blocks of a plane. What it shows before counts where a block is not coded.
fn rebuild_plane(plane: &mut Plane, from: &Sources<'_>, pli: u8)
    requires pli { pli < 3 }
    requires sized { IsPlaneOf from.now.geom.now pli plane.old }
    requires start { ShowsUncoded from.now.geom.now (refs_of from.now) (frame_of from.now.coded.now) pli plane.old }
    ensures value { sealed_picture plane.new ≡ sealed_picture (unfiltered_plane (contents from.now.setup.now) from.now.geom.now (refs_of from.now) (frame_of from.now.coded.now) pli) }
    ensures sized { IsPlaneOf from.now.geom.now pli plane.new }
{
    let _width = plane.width();
    let matrices = matrices(from.setup, from.coded, pli);
    let sources = PlaneSources {
        from: *from,
        pli,
        matrices: &matrices,
    };
    sources.rebuild_all(plane);
}

// Makes a frame show the previous one where a block is not coded. An intra frame has no such block.
fn begin_frame(now: &mut Frame, from: &Sources<'_>)
    requires { IsFrameOf from.now.geom.now now.old }
    ensures y { ShowsUncoded from.now.geom.now (refs_of from.now) (frame_of from.now.coded.now) 0 now.new.y }
    ensures cb { ShowsUncoded from.now.geom.now (refs_of from.now) (frame_of from.now.coded.now) 1 now.new.cb }
    ensures cr { ShowsUncoded from.now.geom.now (refs_of from.now) (frame_of from.now.coded.now) 2 now.new.cr }
    ensures sized { IsFrameOf from.now.geom.now now.new }
{
    if from.coded.intra {
        return;
    }
    now.copy_from(from.prev);
}

// Rebuilds the blocks of all planes.
fn rebuild_planes(now: &mut Frame, from: &Sources<'_>)
    requires { IsFrameOf from.now.geom.now now.old }
    ensures value { sealed_frame now.new ≡ sealed_frame (unfiltered (contents from.now.setup.now) from.now.geom.now (refs_of from.now) (frame_of from.now.coded.now)) }
    ensures sized { IsFrameOf from.now.geom.now now.new }
{
    begin_frame(now, from);
    rebuild_plane(&mut now.y, from, 0);
    rebuild_plane(&mut now.cb, from, 1);
    rebuild_plane(&mut now.cr, from, 2);
}

// Rebuilds a frame, and filters it.
fn paint_frame(now: &mut Frame, from: &Sources<'_>)
    requires { IsFrameOf from.now.geom.now now.old }
    ensures value { sealed_frame now.new ≡ rebuilt_frame (contents from.now.setup.now) from.now.geom.now (refs_of from.now) (frame_of from.now.coded.now) }
    ensures sized { IsFrameOf from.now.geom.now now.new }
{
    rebuild_planes(now, from);
    let limits = from.setup.limits.of;
    let limit = limits[usize::from(from.coded.qis[0])];
    filter(now, from.geom, &from.coded.flags, limit);
}

/// Rebuilds a frame from what its packet says, from the previous and the golden frame where it is not intra: block by block,
/// filtered (Theora I, 7.9.4 and 7.10). It becomes the previous frame, and an intra frame the golden one too
/// (Theora I, 7.11). Takes no memory.
pub fn rebuild_frame(store: &mut RefStore, geom: &Geom, setup: &Setup, coded: &Coded)
    requires sized { AreOf geom.now store.old }
    requires whole { IsCodedFrame geom.now (frame_of coded.now) }
    requires first { IsTrue (coded.now.intra || store.old.started) }
    requires prev_sealed { AreSealed store.old.prev }
    requires golden_sealed { AreSealed store.old.golden }
    ensures prev { store.new.prev ≡ rebuilt_frame (contents setup.now) geom.now (pair_in store.old) (frame_of coded.now) }
    ensures key { OnTrue coded.now.intra (store.new.golden ≡ rebuilt_frame (contents setup.now) geom.now (pair_in store.old) (frame_of coded.now)) }
    ensures golden { OnFalse coded.now.intra (store.new.golden ≡ store.old.golden) }
    ensures pair { pair_in store.new ≡ behind (contents setup.now) geom.now (pair_in store.old) (frame_of coded.now) }
    ensures started { store.new.started ≡ true }
    ensures sized { AreOf geom.now store.new }
    ensures prev_sealed { AreSealed store.new.prev }
    ensures golden_sealed { AreSealed store.new.golden }
{
    let painting = store.paint();
    let from = Sources {
        geom,
        setup,
        coded,
        prev: painting.prev,
        golden: painting.golden,
    };
    paint_frame(painting.now, &from);
    store.commit(coded.intra);
}

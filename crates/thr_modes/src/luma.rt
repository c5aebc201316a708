// Which luma blocks of a macro block are coded (Theora I, 7.4).
ghost use Rattle.std.specs.Prelude.{◌≡◌, ◌<◌, All, Some, false, get_or, length, map, slice_get};
ghost use Rattle.vid_geom.specs.CodedOrder.{order_of};
ghost use Rattle.vid_geom.specs.MacroBlocks.{macro_blocks};
ghost use Rattle.thr_modes.specs.LumaFlags.{macro_flags};

use vid_geom::Geom;

/// The flags at four places.
pub fn flags_at(flags: &[bool], places: [u32; 4]) -> [bool; 4]
    requires { All (λ place. place < length flags.now) places }
    ensures { result ≡ map (λ place. get_or flags.now place false) places }
{
    [
        flags[places[0] as usize],
        flags[places[1] as usize],
        flags[places[2] as usize],
        flags[places[3] as usize],
    ]
}

/// The flags of the luma blocks of a macro block, in raster order from the lower left.
pub fn luma_flags(geom: &Geom, flags: &[bool], m: u32) -> [bool; 4]
    requires flags { length flags.now ≡ length (order_of geom.now) }
    requires m { m < length (macro_blocks geom.now) }
    ensures { slice_get (macro_flags geom.now flags.now) m ≡ Some result }
{
    flags_at(flags, geom.luma_places(m))
}

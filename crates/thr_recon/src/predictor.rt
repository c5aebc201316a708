// What a block is predicted from (Theora I, 7.9.1).
ghost use Rattle.std.specs.Prelude.{◌≡◌, ◌<◌};

use crate::rows::mean_block;
use vid_plane::Window;

/// What a block is predicted from: nothing, a block of an earlier frame, or the mean of two, rounded downwards
/// (Theora I, 7.9.1). Its samples are read from the windows, and none is kept here.
#[derive(Clone, Copy)]
pub enum Predictor<'a> {
    Flat,
    One(Window<'a>),
    Two(Window<'a>, Window<'a>),
}

impl Predictor<'_> {
    ghost use Rattle.thr_recon.specs.Predicted.{shown};
    ghost use Rattle.thr_recon.specs.Rebuilt.{block_of};

    /// The predicted sample dx columns to the right of the block's lower left one, and dy rows above it.
    #[tactic(auto, unfolding(crate::specs::Predicted::shown, crate::specs::Predicted::flat, crate::specs::Predicted::moved, crate::specs::Predicted::mean_of))]
    pub fn at(&self, dx: u8, dy: u8) -> u8
        requires dx { dx < 8 }
        requires dy { dy < 8 }
        ensures { result ≡ shown self.now dx dy }
    {
        match self {
            Predictor::Flat => 128,
            Predictor::One(window) => window.at(dx, dy),
            Predictor::Two(near, far) => {
                ((u16::from(near.at(dx, dy)) + u16::from(far.at(dx, dy))) / 2) as u8
            }
        }
    }

    /// All eight rows of eight predicted samples, the lowest first.
    pub fn block(&self) -> [[u8; 8]; 8]
        ensures { result ≡ block_of (shown self.now) }
    {
        match self {
            Predictor::Flat => [[128; 8]; 8],
            Predictor::One(window) => window.block(),
            Predictor::Two(near, far) => mean_block(&near.block(), &far.block()),
        }
    }
}

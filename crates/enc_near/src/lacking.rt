// What the prediction of a block lacks (own).
ghost use Rattle.std.specs.Prelude.{◌≡◌, pos, ◌-ℤ◌, All};
ghost use Rattle.thr_dct.specs.Line.{Within};
ghost use Rattle.thr_recon.specs.Rebuilt.{block_of};
ghost use Rattle.enc_search.specs.Searched.{Samples};
ghost use Rattle.enc_near.specs.Near.{lacking};

// A sample less the predicted one.
fn difference(sample: u8, predicted: u8) -> i16
    ensures value { result ≡ pos sample -ℤ pos predicted }
    ensures bound { Within 255 result }
{
    i16::from(sample) - i16::from(predicted)
}

/// The samples of a block less the predicted ones, in natural order. Both are given by rows, the lowest first.
pub(crate) fn lacking(target: &[[u8; 8]; 8], predicted: &[[u8; 8]; 8]) -> [i16; 64]
    ensures value { (f g : Samples) → target.now ≡ block_of f → predicted.now ≡ block_of g → result ≡ lacking f g }
    ensures bounds { All (Within 255) result }
{
    let mut out = [0; 64];
    for k in 0..64usize {
        out[k] = difference(target[k / 8][k % 8], predicted[k / 8][k % 8]);
    }
    out
}

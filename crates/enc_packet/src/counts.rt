// How often each token stands in a frame (own).
ghost use Rattle.std.specs.Prelude.{◌≡◌, ◌<◌, All};
ghost use Rattle.thr_token.specs.Coefficients.{group_of};
ghost use Rattle.thr_token.specs.Tokenised.{IsToken};

use thr_token::Token;

/// How many groups of places there are; a frame reads each by trees of its own.
pub(crate) const GROUPS: usize = 5;

/// How many tokens there are.
pub(crate) const TOKENS: usize = 32;

/// How often each token stands in each group of places, for the blocks of luma and for those of chroma.
#[derive(Drop)]
pub(crate) struct Counts {
    pub(crate) luma: [[u32; TOKENS]; GROUPS],
    pub(crate) chroma: [[u32; TOKENS]; GROUPS],
}

/// The group of a place (Theora I, 7.7.3).
fn group_of(place: u8) -> usize
    ensures value { result ≡ group_of place }
    ensures small { result < 5 }
{
    match place {
        0 => 0,
        1..=5 => 1,
        6..=14 => 2,
        15..=27 => 3,
        _ => 4,
    }
}

/// One more of a token. A frame has fewer tokens than 2^32.
fn add_one(counts: &mut [u32; TOKENS], token: u8)
    requires { token < 32 }
{
    let count = &mut counts[usize::from(token)];
    *count = count.wrapping_add(1);
}

impl Counts {
    fn add(&mut self, token: &Token)
        requires { IsToken token.now }
    {
        let group = group_of(token.place);
        if token.luma {
            add_one(&mut self.luma[group], token.token);
        } else {
            add_one(&mut self.chroma[group], token.token);
        }
    }

    /// Those of a frame's tokens.
    pub(crate) fn of(tokens: &[Token]) -> Counts
        requires { All IsToken tokens.now }
    {
        let mut counts = Counts {
            luma: [[0; TOKENS]; GROUPS],
            chroma: [[0; TOKENS]; GROUPS],
        };
        'tokens: for token in tokens {
            counts.add(token);
        }
        counts
    }
}

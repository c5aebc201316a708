// By which trees the tokens of a frame are read (Theora I, 7.7.3).
ghost use Rattle.std.specs.Prelude.{◌≡◌, ◌<◌, false, get_or, length, true, IfOk};
ghost use Rattle.vid_base.specs.Reading.{Gives, SameEnd};
ghost use Rattle.vid_geom.specs.CodedOrder.{order_of, plane_blocks};
ghost use Rattle.thr_token.specs.Coefficients.{group_of, numbers_in, token_in, tree_of};
ghost use Rattle.thr_token.specs.Standing.{lumas_of};
ghost use Rattle.thr_token.specs.Views.{as_meaning, as_numbers};

use crate::meaning::{Meaning, further_bits, meaning_of};
use thr_huff::Forest;
use vid_base::{BitReader, PacketFault};
use vid_geom::Geom;

/// Which tree of a group the blocks of luma take, and which the others.
#[derive(Clone, Copy)]
pub(crate) struct TableNumbers {
    pub(crate) luma: u8,
    pub(crate) chroma: u8,
}

/// The trees by which the blocks of a frame read their tokens at some places.
#[derive(Clone, Copy)]
pub(crate) struct Trees<'a> {
    pub(crate) forest: &'a Forest,
    pub(crate) geom: &'a Geom,
    pub(crate) numbers: TableNumbers,
    /// How many blocks are of luma: they stand first in coded order.
    pub(crate) lumas: u32,
    ghost small: { (numbers.luma < 16) × (numbers.chroma < 16) },
    ghost lumas_are: { lumas ≡ plane_blocks geom.now 0 },
}

/// Those of one place.
#[derive(Clone, Copy)]
pub(crate) struct PlaceTrees<'a> {
    pub(crate) all: Trees<'a>,
    pub(crate) place: u8,
    luma: u8,
    chroma: u8,
    ghost place_is: { place < 64 },
    ghost luma_is: { luma ≡ tree_of (as_numbers all.numbers) place true },
    ghost chroma_is: { chroma ≡ tree_of (as_numbers all.numbers) place false },
    ghost within: { (luma < 80) × (chroma < 80) },
}

/// The group of a place.
fn group_of(place: u8) -> u8
    ensures value { result ≡ group_of place }
    ensures small { result < 5 }
{
    match place {
        0 => 0,
        1..=5 => 1,
        6..=14 => 2,
        15..=27 => 3,
        _ => 4,
    }
}

impl TableNumbers {
    /// Reads the two numbers.
    #[tactic(auto, unfolding(crate::specs::Coefficients::numbers_in))]
    pub(crate) fn read(r: &mut BitReader) -> Result<TableNumbers, PacketFault>
        ensures value { Gives as_numbers result r.new.left (numbers_in r.old.left) }
        ensures end { SameEnd r.old r.new }
        ensures small { IfOk result (λ numbers. (numbers.luma < 16) × (numbers.chroma < 16)) }
    {
        let luma = r.take(4)? as u8;
        let chroma = r.take(4)? as u8;
        Ok(TableNumbers { luma, chroma })
    }

    /// The tree by which a block's token is read.
    pub(crate) fn tree_of(self, place: u8, luma: bool) -> u8
        requires luma { self.luma < 16 }
        requires chroma { self.chroma < 16 }
        ensures value { result ≡ tree_of (as_numbers self) place luma }
        ensures small { result < 80 }
    {
        16 * group_of(place) + if luma { self.luma } else { self.chroma }
    }
}

impl<'a> Trees<'a> {
    /// Reads which trees they are.
    pub(crate) fn read(
        r: &mut BitReader,
        forest: &'a Forest,
        geom: &'a Geom,
    ) -> Result<Trees<'a>, PacketFault>
        ensures value { Gives (λ trees. as_numbers trees.numbers) result r.new.left (numbers_in r.old.left) }
        ensures end { SameEnd r.old r.new }
        ensures trees { IfOk result (λ trees. (trees.forest.now ≡ forest.now) × (trees.geom.now ≡ geom.now)) }
    {
        let numbers = TableNumbers::read(r)?;
        Ok(Trees {
            forest,
            geom,
            numbers,
            lumas: 4 * geom.macro_blocks(),
        })
    }

    /// The trees of a place.
    pub(crate) fn at(&self, place: u8) -> PlaceTrees<'a>
        requires { place < 64 }
        ensures all { result.all ≡ self.now }
        ensures place { result.place ≡ place }
    {
        PlaceTrees {
            all: *self,
            place,
            luma: self.numbers.tree_of(place, true),
            chroma: self.numbers.tree_of(place, false),
        }
    }

    /// Whether a block is one of luma.
    pub(crate) fn is_luma(&self, b: u32) -> bool
        requires { b < length (order_of self.now.geom.now) }
        ensures { result ≡ get_or (lumas_of self.now.geom.now) b false }
    {
        b < self.lumas
    }
}

impl PlaceTrees<'_> {
    /// The meaning of the next token, that of a block at the place.
    #[tactic(auto, unfolding(crate::specs::Coefficients::token_in))]
    pub(crate) fn read(&self, r: &mut BitReader, luma: bool) -> Result<Meaning, PacketFault>
        ensures value { Gives as_meaning result r.new.left (token_in self.now.all.forest.now (as_numbers self.now.all.numbers) self.now.place luma r.old.left) }
        ensures end { SameEnd r.old r.new }
    {
        let tree = if luma { self.luma } else { self.chroma };
        let token = self.all.forest.token(tree, r)?;
        let extra = r.take(further_bits(token))?;
        Ok(meaning_of(token, extra))
    }
}

ghost use Rattle.std.specs.Prelude.{◌≡◌, ◌<◌, ◌≤◌, All, IsTrue, length, pos, replicate, unsigned_abs};
ghost use Rattle.thr_token.specs.Tokenised.{AreBlank, IsToken};
ghost use Rattle.thr_token.specs.WrittenTokens.{IsHeld};

use crate::meaning::further_bits;
use crate::writing::Part;
use crate::*;
use std::alloc::Global;
use std::process::Abort;
use std::test::Fail;
use thr_huff::{Forest, read_forest};
use vid_base::{BitReader, BitWriter, NoMem, Shape};
use vid_geom::Geom;

/// A value that is not 0: its block, its place, and the value.
type Value = (usize, usize, i16);

/// A number and how many bits it has.
type Field = (u32, u32);

// Trees of all tokens with codes of 5 bits. In tree n of group g the code is less than the token by n + g.
fn forest(alloc: Global) -> Result<Forest, Fail> {
    let mut w = BitWriter::new(alloc);
    for hti in 0..80u32 {
        for code in 0..32u32 {
            let levels = if code == 0 { 5 } else { code.trailing_zeros() };
            w.put(0, levels)?;
            w.put(1, 1)?;
            w.put((code + hti % 16 + hti / 16) % 32, 5)?;
        }
    }
    let bytes = w.finish();
    Ok(read_forest(alloc, &mut BitReader::new(&bytes))?)
}

// Whether the token can be written, and the tree that the tables name holds it.
fn is_writable(token: Token, forest: &Forest, tables: &Tables) -> bool
    requires dc { (tables.now.luma_dc < 16) × (tables.now.chroma_dc < 16) }
    requires ac { (tables.now.luma_ac < 16) × (tables.now.chroma_ac < 16) }
    ensures token { IsTrue result → IsToken token }
    ensures held { IsTrue result → IsHeld forest.now tables.now token }
{
    if token.place >= 64 || token.token >= 32 {
        return false;
    }
    let part = if token.place == 0 { Part::Dc } else { Part::Ac };
    let tree = tables.of(part).tree_of(token.place, token.luma);
    token.extra < 1 << further_bits(token.token) && forest.code(tree, token.token).is_some()
}

const TABLES: Tables = Tables {
    luma_dc: 1,
    chroma_dc: 2,
    luma_ac: 3,
    chroma_ac: 4,
};

// The bytes of the tokens, under tables of these trees.
fn written(rt: &impl Abort, alloc: Global, tokens: &[Token]) -> Result<Vec<u8>, Fail> {
    let forest = forest(alloc)?;
    let mut w = BitWriter::new(alloc);
    if tokens
        .iter()
        .all(|token| is_writable(*token, &forest, &TABLES))
    {
        assert_eq!(rt; write_tokens(&mut w, tokens, &forest, &TABLES), Ok(()));
    }
    Ok(w.finish())
}

// The bytes of fields one behind the other, each of at most 12 bits.
fn bytes_of(alloc: Global, fields: &[Field]) -> Result<Vec<u8>, NoMem> {
    let mut w = BitWriter::new(alloc);
    for (number, width) in fields {
        let width = (*width).min(12);
        w.put(*number % (1 << width), width)?;
    }
    Ok(w.finish())
}

/// A token: its place, whether its block is one of luma, its number, and its further bits.
type Row = (u8, bool, u8, u32);

// The tokens of rows.
fn tokens_in(alloc: Global, rows: &[Row]) -> Result<Vec<Token>, NoMem> {
    let mut tokens = Vec::new(alloc);
    for (place, luma, token, extra) in rows {
        tokens.push(Token {
            place: *place,
            luma: *luma,
            token: *token,
            extra: *extra,
        })?;
    }
    Ok(tokens)
}

/// Tokens and their bits, worked by hand: the numbers of two tables, the tokens of place 0, two more numbers, the others.
const WRITTEN: [(&[Row], &[Field]); 3] = [
    (&[], &[(1, 4), (2, 4), (3, 4), (4, 4)]),
    (
        &[
            (0, true, 9, 0),
            (0, false, 6, 5),
            (1, true, 22, 1_023),
            (28, false, 31, 6),
        ],
        &[
            (1, 4),
            (2, 4),
            (8, 5),
            (4, 5),
            (5, 12),
            (3, 4),
            (4, 4),
            (18, 5),
            (1_023, 10),
            (23, 5),
            (6, 3),
        ],
    ),
    (
        &[
            (5, true, 0, 0),
            (6, true, 7, 7),
            (14, false, 13, 1),
            (15, true, 20, 31),
        ],
        &[
            (1, 4),
            (2, 4),
            (3, 4),
            (4, 4),
            (28, 5),
            (2, 5),
            (7, 3),
            (7, 5),
            (1, 1),
            (14, 5),
            (31, 5),
        ],
    ),
];

#[test]
fn tokens_stand_behind_the_numbers_of_their_tables_with_their_codes_and_further_bits(
    rt: HostRuntime,
) -> Result<(), Fail> {
    for (rows, fields) in WRITTEN {
        let tokens = tokens_in(rt.alloc(), rows)?;
        let bytes = written(&rt, rt.alloc(), &tokens)?;
        let want = bytes_of(rt.alloc(), fields)?;
        assert!(rt;
            bytes.as_slice() == want.as_slice(),
            "{} tokens",
            tokens.len()
        );
    }
    Ok(())
}

// Whether all values are within -580 to 580.
fn are_small(values: &[[i16; 64]]) -> bool
    ensures { IsTrue result → All (All (λ v. unsigned_abs v ≤ 580)) values.now }
{
    values.iter().all(|block| block.iter().all(|value| value.unsigned_abs() <= 580))
}

// Whether a block has only zeros.
fn is_blank(block: &[i16; 64]) -> bool
    ensures { IsTrue result → block.now ≡ replicate 64 (pos 0) }
{
    *block == [0; 64]
}

// Whether each block that is not coded has only zeros.
fn are_blank(flags: &[bool], values: &[[i16; 64]]) -> bool
    requires { length values.now ≡ length flags.now }
    ensures { IsTrue result → AreBlank flags.now values.now }
{
    'flags: for (b, coded) in flags.iter().enumerate() {
        if !*coded && !is_blank(&values[b]) {
            return false;
        }
    }
    true
}

// The tokens of coefficients that have any.
fn tokens_of(
    rt: &impl Abort,
    alloc: Global,
    geom: &Geom,
    flags: &[bool],
    coeffs: &Coeffs,
) -> Result<Vec<Token>, NoMem> {
    let blocks = geom.blocks() as usize;
    assert!(rt; flags.len() == blocks && coeffs.values.len() == blocks);
    assert!(rt; are_small(&coeffs.values) && are_blank(flags, &coeffs.values));
    tokenise(alloc, geom, flags, coeffs)
}

// The layout of a frame, from its columns and rows of macro blocks and its pixel format.
fn layout(rt: &impl Abort, alloc: Global, columns: u16, rows: u16, format: u8) -> Geom {
    let shape = Shape::new(columns, rows, format).expect(rt, "no shape");
    Geom::new(alloc, shape).expect(rt, "no memory")
}

// Flags of which the first so many are set.
fn flags_of(alloc: Global, blocks: u32, coded: usize) -> Result<Vec<bool>, NoMem> {
    let mut flags = Vec::new(alloc);
    for b in 0..blocks as usize {
        flags.push(b < coded)?;
    }
    Ok(flags)
}

/// The coded blocks of a macro block in 4:2:0, its values that are not 0, and its tokens, worked by hand.
const TOLD: [(usize, &[Value], &[Row]); 9] = [
    (0, &[], &[]),
    (6, &[], &[(0, true, 3, 2)]),
    // A run goes on at the next place.
    (6, &[(0, 0, 1)], &[(0, true, 9, 0), (0, true, 3, 2)]),
    // The longest row of zeros, and the greatest value.
    (
        6,
        &[(0, 63, 580)],
        &[(0, true, 8, 62), (0, true, 3, 1), (63, true, 22, 511)],
    ),
    // Chroma, and one zero with its value.
    (
        6,
        &[(4, 0, -3), (4, 2, 1)],
        &[
            (0, true, 3, 0),
            (0, false, 13, 1),
            (0, false, 0, 0),
            (1, false, 23, 0),
            (3, false, 0, 0),
        ],
    ),
    // Zeros that one token says with their value.
    (1, &[(0, 3, -2)], &[(0, true, 31, 5), (4, true, 0, 0)]),
    (1, &[(0, 17, 1)], &[(0, true, 29, 7), (18, true, 0, 0)]),
    // And zeros that have a token of their own.
    (
        1,
        &[(0, 4, 4)],
        &[(0, true, 7, 3), (4, true, 14, 0), (5, true, 0, 0)],
    ),
    (
        1,
        &[(0, 9, -12)],
        &[(0, true, 8, 8), (9, true, 18, 7), (10, true, 0, 0)],
    ),
];

// Coefficients that are 0 but for these.
fn coeffs_of(alloc: Global, blocks: u32, values: &[Value]) -> Result<Coeffs, Fail> {
    let mut coeffs = Coeffs::new(alloc);
    for b in 0..blocks as usize {
        let mut block = [0; 64];
        for (at, place, value) in values {
            if *at == b && *place < 64 {
                block[*place] = *value;
            }
        }
        coeffs.values.push(block)?;
    }
    Ok(coeffs)
}

#[test]
fn the_tokens_of_a_macro_block_are_as_worked_by_hand(rt: HostRuntime) -> Result<(), Fail> {
    let geom = layout(&rt, rt.alloc(), 1, 1, 0);
    for (coded, values, rows) in TOLD {
        let flags = flags_of(rt.alloc(), geom.blocks(), coded)?;
        let coeffs = coeffs_of(rt.alloc(), geom.blocks(), values)?;
        let tokens = tokens_of(&rt, rt.alloc(), &geom, &flags, &coeffs)?;
        let want = tokens_in(rt.alloc(), rows)?;
        assert!(rt;
            tokens.as_slice() == want.as_slice(),
            "{} values",
            values.len()
        );
    }
    Ok(())
}

#[test]
fn a_run_ends_at_most_4095_blocks(rt: HostRuntime) -> Result<(), Fail> {
    let geom = layout(&rt, rt.alloc(), 32, 32, 0);
    let flags = flags_of(rt.alloc(), geom.blocks(), 6_144)?;
    let coeffs = coeffs_of(rt.alloc(), geom.blocks(), &[])?;
    let tokens = tokens_of(&rt, rt.alloc(), &geom, &flags, &coeffs)?;
    let want = tokens_in(rt.alloc(), &[(0, true, 6, 4_095), (0, true, 6, 2_049)])?;
    assert!(rt; tokens.as_slice() == want.as_slice());
    Ok(())
}

// Coefficients of coded blocks, of which so many of 256 are not 0.
fn drawn_coeffs(alloc: Global, flags: &[bool], dense: u32) -> Result<Coeffs, Fail> {
    let mut coeffs = Coeffs::new(alloc);
    let mut state = dense;
    for coded in flags {
        let mut block = [0; 64];
        for place in 0..64 {
            state = state.wrapping_mul(1_664_525).wrapping_add(1_013_904_223);
            let size = (state >> 8) % 581 >> (state >> 20) % 10;
            if *coded && (state >> 24) < dense {
                block[place] = if state >> 19 & 1 == 0 {
                    size as i16
                } else {
                    -(size as i16)
                };
            }
        }
        coeffs.values.push(block)?;
    }
    Ok(coeffs)
}

// Writes coefficients, and reads them again.
fn pass_through_bits(
    rt: &impl Abort,
    alloc: Global,
    geom: &Geom,
    flags: &[bool],
    coeffs: &Coeffs,
) -> Result<(), Fail> {
    let tokens = tokens_of(rt, alloc, geom, flags, coeffs)?;
    let bytes = written(rt, alloc, &tokens)?;
    let forest = forest(alloc)?;
    let mut back = Coeffs::new(alloc);
    let mut r = BitReader::new(&bytes);
    assert!(rt; flags.len() == geom.blocks() as usize);
    assert_eq!(rt;
        read_tokens(&mut r, &forest, geom, flags, &mut back),
        Ok(())
    );
    assert!(rt; back.values.as_slice() == coeffs.values.as_slice());
    assert!(rt; r.take(8).is_err());
    Ok(())
}

#[test]
fn coefficients_of_nine_shapes_are_written_and_read(rt: HostRuntime) -> Result<(), Fail> {
    for (columns, rows) in [(1, 1), (2, 3), (5, 3)] {
        for format in [0, 2, 3] {
            let geom = layout(&rt, rt.alloc(), columns, rows, format);
            for dense in [0, 3, 40, 256] {
                let coded = geom.blocks() as usize - 2;
                let flags = flags_of(rt.alloc(), geom.blocks(), coded)?;
                let coeffs = drawn_coeffs(rt.alloc(), &flags, dense)?;
                pass_through_bits(&rt, rt.alloc(), &geom, &flags, &coeffs)?;
            }
        }
    }
    Ok(())
}

#[test]
fn the_greatest_frame_is_written_and_read(rt: HostRuntime) -> Result<(), Fail> {
    let geom = layout(&rt, rt.alloc(), 512, 256, 3);
    let flags = flags_of(rt.alloc(), geom.blocks(), 1_572_864)?;
    let coeffs = coeffs_of(rt.alloc(), geom.blocks(), &[(1_572_863, 63, -580)])?;
    pass_through_bits(&rt, rt.alloc(), &geom, &flags, &coeffs)
}

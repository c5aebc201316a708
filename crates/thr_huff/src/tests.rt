ghost use Rattle.std.specs.Prelude.{IfOk, map};
ghost use Rattle.thr_huff.specs.CodeTree.{code_tree};
ghost use Rattle.thr_huff.specs.Trees.{IsForest};

use crate::book::Book;
use crate::tree::walk;
use crate::*;
use std::alloc::Global;
use std::test::Fail;
use vid_base::{BitReader, BitWriter, NoMem, PacketFault, Refusal};

// Which trees a forest is written of.
#[derive(Clone, Copy)]
enum Kind {
    // One leaf with this token.
    Leaf(u8),
    // 7, 7 and 9, with the codes 0, 10 and 11.
    Repeated,
    // Token t with the 5-bit code t.
    Full,
    // Token t with t bits 1 and then a 0, but the last without a 0.
    Chain,
}

fn put_leaf(w: &mut BitWriter, token: u8) -> Result<(), NoMem> {
    w.put(32 + u32::from(token % 32), 6)
}

fn put_tree(w: &mut BitWriter, kind: Kind) -> Result<(), NoMem> {
    match kind {
        Kind::Leaf(token) => put_leaf(w, token),
        Kind::Repeated => {
            w.put(0, 1)?;
            put_leaf(w, 7)?;
            w.put(0, 1)?;
            put_leaf(w, 7)?;
            put_leaf(w, 9)
        }
        Kind::Full => {
            w.put(0, 5)?;
            put_leaf(w, 0)?;
            for token in 1..32u8 {
                w.put(0, token.trailing_zeros())?;
                put_leaf(w, token)?;
            }
            Ok(())
        }
        Kind::Chain => {
            for token in 0..31 {
                w.put(0, 1)?;
                put_leaf(w, token)?;
            }
            put_leaf(w, 31)
        }
    }
}

// A forest whose tree hti is of this kind.
fn written(alloc: Global, kinds: &[Kind; 80]) -> Result<Vec<u8>, NoMem> {
    let mut w = BitWriter::new(alloc);
    for kind in kinds {
        put_tree(&mut w, *kind)?;
    }
    Ok(w.finish())
}

#[test]
fn the_first_fault_of_a_forest_in_reading_order_is_refused(rt: HostRuntime) {
    let mut leaves = [0; 29];
    for (i, byte) in leaves.iter_mut().enumerate() {
        *byte = [0x40, 0x81, 0x02, 0x04, 0x08, 0x10, 0x20][i % 7];
    }
    leaves[28] = 0x80;
    let rows: [(&[u8], PacketFault); 5] = [
        (&[], PacketFault::Ended),
        (&[0; 4], PacketFault::Ended),
        (&[0; 5], PacketFault::TreeDeep),
        (&leaves[..28], PacketFault::Ended),
        (&leaves, PacketFault::TreeLeaves),
    ];
    for (bytes, want) in rows {
        let got = read_forest(rt.alloc(), &mut BitReader::new(bytes)).err();
        assert_eq!(rt; got, Some(Refusal::Bad(want)));
    }
}

#[test]
fn a_fault_of_the_last_tree_is_refused(rt: HostRuntime) -> Result<(), Fail> {
    let rows: [(&str, u32, u32, u32, PacketFault); 4] = [
        ("no bits", 0, 0, 0, PacketFault::Ended),
        ("a leaf that ends", 1, 1, 2, PacketFault::Ended),
        ("33 levels", 33, 0, 1, PacketFault::TreeDeep),
        ("33 leaves", 32, 32, 7, PacketFault::TreeLeaves),
    ];
    for (name, times, value, n, want) in rows {
        let mut w = BitWriter::new(rt.alloc());
        for _ in 0..79 {
            put_leaf(&mut w, 31)?;
        }
        for _ in 0..times {
            assert!(rt; n <= 32 && value < 1u32 << n);
            w.put(value, n)?;
        }
        if want == PacketFault::TreeLeaves {
            w.put(1, 1)?;
        }
        let got = read_forest(rt.alloc(), &mut BitReader::new(&w.finish())).err();
        assert_eq!(rt; got, Some(Refusal::Bad(want)), "{name}");
    }
    Ok(())
}

// The forest of such trees, read from its bytes.
fn planted(alloc: Global, kinds: &[Kind; 80]) -> Result<Forest, Fail> {
    let bytes = written(alloc, kinds)?;
    Ok(read_forest(alloc, &mut BitReader::new(&bytes))?)
}

#[test]
fn a_token_has_the_code_of_its_first_leaf(rt: HostRuntime) -> Result<(), Fail> {
    let rows: [(Kind, u8, Option<(u32, u8)>); 11] = [
        (Kind::Leaf(5), 5, Some((0, 0))),
        (Kind::Leaf(5), 4, None),
        (Kind::Repeated, 7, Some((0, 1))),
        (Kind::Repeated, 9, Some((3, 2))),
        (Kind::Repeated, 8, None),
        (Kind::Full, 0, Some((0, 5))),
        (Kind::Full, 22, Some((22, 5))),
        (Kind::Chain, 0, Some((0, 1))),
        (Kind::Chain, 2, Some((6, 3))),
        (Kind::Chain, 30, Some((0x7fff_fffe, 31))),
        (Kind::Chain, 31, Some((0x7fff_ffff, 31))),
    ];
    for (kind, token, want) in rows {
        let forest = planted(rt.alloc(), &[kind; 80])?;
        let got = forest
            .code(79, token % 32)
            .map(|code| (code.bits, code.len));
        assert_eq!(rt; got, want, "at {token}");
    }
    Ok(())
}

// A tree has at most 32 leaves, so that no code has more than 31 bits: those of a chain.
#[test]
fn a_forest_and_its_copy_write_the_bits_that_it_was_read_from(rt: HostRuntime) -> Result<(), Fail> {
    let mut mixed = [Kind::Repeated; 80];
    mixed[0] = Kind::Chain;
    mixed[1] = Kind::Leaf(31);
    mixed[79] = Kind::Full;
    for kinds in [mixed, [Kind::Full; 80], [Kind::Chain; 80]] {
        let bytes = written(rt.alloc(), &kinds)?;
        let forest = planted(rt.alloc(), &kinds)?;
        let copy = forest.clone()?;
        for each in [forest, copy] {
            let mut w = BitWriter::new(rt.alloc());
            write_forest(&mut w, &each)?;
            assert!(rt; w.finish().as_slice() == bytes.as_slice());
        }
    }
    Ok(())
}

#[test]
fn the_least_row_that_is_full_in_all_five_groups_is_given(rt: HostRuntime) -> Result<(), Fail> {
    let rows: [(&[usize], Option<u8>); 6] = [
        (&[], None),
        (&[0, 16, 32, 48, 64], Some(0)),
        (&[15, 31, 47, 63, 79], Some(15)),
        (&[3, 19, 35, 51, 67, 9, 25, 41, 57, 73], Some(3)),
        (&[3, 19, 35, 51, 9, 25, 41, 57, 73], Some(9)),
        (&[19, 35, 51, 67], None),
    ];
    for (full, want) in rows {
        let mut kinds = [Kind::Repeated; 80];
        for hti in full {
            kinds[*hti % 80] = Kind::Full;
        }
        assert_eq!(rt; planted(rt.alloc(), &kinds)?.full_row(), want);
    }
    Ok(())
}

#[test]
fn the_table_and_the_walk_give_the_same_tokens(rt: HostRuntime) -> Result<(), Fail> {
    let mut noise = [0; 64];
    let mut state = 1u32;
    for byte in noise.iter_mut() {
        state = state.wrapping_mul(1_664_525).wrapping_add(1_013_904_223);
        *byte = (state >> 24) as u8;
    }
    for kind in [Kind::Repeated, Kind::Full, Kind::Chain] {
        let mut w = BitWriter::new(rt.alloc());
        put_tree(&mut w, kind)?;
        let bytes = w.finish();
        let book = Book::read(rt.alloc(), &mut BitReader::new(&bytes))?;
        for bits in [&noise[..], &[0xff; 9], &[0xff, 0xff, 0xff, 0xfe], &[]] {
            let mut by_table = BitReader::new(bits);
            let mut by_walk = BitReader::new(bits);
            for _ in 0..300 {
                let token = book.token(&mut by_table);
                assert_eq!(rt; token, walk(&book.tree, &mut by_walk));
                assert_eq!(rt; by_table.peek(5), by_walk.peek(5));
            }
        }
    }
    Ok(())
}

// Eighty trees of one leaf, made in memory.
fn leaves(alloc: Global) -> Result<Vec<Tree>, NoMem>
    ensures { IfOk result (λ trees. IsForest (map code_tree trees.items)) }
{
    let mut trees = Vec::new(alloc);
    while trees.len() < 80 {
        trees.push(Tree::leaf(5))?;
    }
    Ok(trees)
}

#[test]
fn trees_made_in_memory_make_a_forest(rt: HostRuntime) -> Result<(), Fail> {
    let trees = leaves(rt.alloc())?;
    let forest = Forest::new(rt.alloc(), trees)?;
    assert_eq!(rt; forest.token(79, &mut BitReader::new(&[])), Ok(5));
    let tree = Tree::branch(rt.alloc(), Tree::leaf(1), Tree::leaf(2))?;
    assert_eq!(rt; walk(&tree, &mut BitReader::new(&[0x80])), Ok(2));
    Ok(())
}

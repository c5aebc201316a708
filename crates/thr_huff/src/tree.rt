// One tree: reading, writing, its codes, and a walk by the bits of a packet (Theora I, 6.4.4 and 7.7.3).
ghost use Rattle.std.specs.Prelude.{◌≡◌, ◌≤◌, ◌<◌, ◌+◌, ◌∷◌, ◌++◌, [], List, Bool, All, length, IfOk, OnOk, OnErr, option_map};
ghost use Rattle.vid_base.specs.Reading.{GivesOrNoMem, SameEnd, Taken};
ghost use Rattle.thr_huff.specs.CodeTree.{code_tree, Token, Fork};
ghost use Rattle.thr_huff.specs.Codes.{codes_of, code_of, code_bits, front_token};
ghost use Rattle.thr_huff.specs.Trees.{FitsLevels, tree_at, tree_bits};

use crate::Code;
use std::alloc::{AllocError, Global};
use vid_base::{BitReader, BitWriter, Ended, NoMem, PacketFault, Refusal};

/// The most leaves of a tree.
const MOST_LEAVES: u32 = 32;

/// A tree of codes: a leaf with its token, or the tree for a bit 0 and the tree for a bit 1.
#[derive(Drop)]
pub enum Tree {
    Leaf(u8),
    Branch(Box<Tree>, Box<Tree>),
}

impl Tree {
    /// A lone leaf, whose code has no bits.
    #[tactic(auto, unfolding(crate::specs::CodeTree::code_tree))]
    pub fn leaf(token: u8) -> Tree
        ensures { code_tree result ≡ Token token }
    {
        Tree::Leaf(token)
    }

    /// Two trees under one root: the first for a bit 0, the other for a bit 1.
    #[tactic(auto, unfolding(crate::specs::CodeTree::code_tree))]
    pub fn branch(alloc: Global, left: Tree, right: Tree) -> Result<Tree, NoMem>
        ensures { IfOk result (λ tree. code_tree tree ≡ Fork (code_tree left) (code_tree right)) }
    {
        let left = Box::new(alloc, left)?;
        let right = Box::new(alloc, right)?;
        Ok(Tree::Branch(left, right))
    }
}

/// A tree with the same codes.
#[tactic(auto, unfolding(crate::specs::CodeTree::code_tree))]
pub(crate) fn copied(alloc: Global, tree: &Tree) -> Result<Tree, AllocError>
    ensures { IfOk result (λ copy. code_tree copy ≡ code_tree tree.now) }
{
    match tree {
        Tree::Leaf(token) => Ok(Tree::Leaf(*token)),
        Tree::Branch(left, right) => {
            let left = Box::new(alloc, copied(alloc, left)?)?;
            let right = Box::new(alloc, copied(alloc, right)?)?;
            Ok(Tree::Branch(left, right))
        }
    }
}

/// A tree of at most so many levels, and the leaves that were read so far.
#[tactic(auto, unfolding(crate::specs::Trees::tree_at))]
pub(crate) fn read_tree(
    alloc: Global,
    r: &mut BitReader,
    levels: u32,
    leaves: &mut u32,
) -> Result<Tree, Refusal>
    requires levels { levels ≤ 33 }
    requires leaves { leaves.old ≤ 32 }
    ensures value { GivesOrNoMem code_tree result r.new.left (tree_at levels leaves.old r.old.left) }
    ensures count { IfOk result (λ tree. leaves.new ≡ leaves.old + length (codes_of (code_tree tree))) }
    ensures few { leaves.new ≤ 32 }
    ensures fits { IfOk result (λ tree. FitsLevels levels (code_tree tree)) }
    ensures end { SameEnd r.old r.new }
{
    if levels == 0 {
        return Err(Refusal::Bad(PacketFault::TreeDeep));
    }
    if r.bit()? {
        if *leaves >= MOST_LEAVES {
            return Err(Refusal::Bad(PacketFault::TreeLeaves));
        }
        let token = r.take(5)?;
        *leaves += 1;
        return Ok(Tree::leaf(token as u8));
    }
    let left = read_tree(alloc, r, levels - 1, leaves)?;
    let right = read_tree(alloc, r, levels - 1, leaves)?;
    Ok(Tree::branch(alloc, left, right)?)
}

/// Adds the bits of a tree.
pub(crate) fn write_tree(w: &mut BitWriter, tree: &Tree) -> Result<(), NoMem>
    requires { All (λ code. code.1 < 32) (codes_of (code_tree tree.now)) }
    ensures written { OnOk result (w.new ≡ w.old ++ tree_bits (code_tree tree.now)) }
    ensures memory { OnErr result ((more : List Bool) × (w.new ≡ w.old ++ more)) }
{
    match tree {
        Tree::Leaf(token) => {
            w.put(1, 1)?;
            w.put(u32::from(*token), 5)
        }
        Tree::Branch(left, right) => {
            w.put(0, 1)?;
            write_tree(w, left)?;
            write_tree(w, right)
        }
    }
}

/// The token whose code stands at the front of the bits, bit by bit.
pub(crate) fn walk(tree: &Tree, r: &mut BitReader) -> Result<u8, Ended>
    ensures value { Taken result r.new.left (front_token (codes_of (code_tree tree.now)) r.old.left) }
    ensures ended { OnErr result (r.new.left ≡ []) }
    ensures end { SameEnd r.old r.new }
{
    match tree {
        Tree::Leaf(token) => Ok(*token),
        Tree::Branch(left, right) => {
            if r.bit()? {
                walk(right, r)
            } else {
                walk(left, r)
            }
        }
    }
}

/// The code with one more bit in front.
fn longer(bit: bool, code: Code) -> Code
    requires { code.len < 32 }
    ensures { code_bits result ≡ bit ∷ code_bits code }
{
    Code {
        bits: code.bits + (u32::from(bit) << code.len),
        len: code.len + 1,
    }
}

/// The code of the first leaf that holds the token.
pub(crate) fn code_in(tree: &Tree, token: u8) -> Option<Code>
    requires { All (λ code. length code.0 < 33) (codes_of (code_tree tree.now)) }
    ensures { option_map code_bits result ≡ code_of (codes_of (code_tree tree.now)) token }
{
    match tree {
        Tree::Leaf(held) => {
            if *held == token {
                Some(Code { bits: 0, len: 0 })
            } else {
                None
            }
        }
        Tree::Branch(left, right) => match code_in(left, token) {
            Some(code) => Some(longer(false, code)),
            None => {
                let code = code_in(right, token)?;
                Some(longer(true, code))
            }
        },
    }
}

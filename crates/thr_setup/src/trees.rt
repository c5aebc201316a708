// The trees of the setup of streams that are made here (own).
ghost use Rattle.std.specs.Prelude.{◌≡◌, ◌<◌, ◌^◌, IfOk, length, map};
ghost use Rattle.thr_huff.specs.CodeTree.{code_tree};
ghost use Rattle.thr_huff.specs.Trees.{IsForest};
ghost use Rattle.thr_setup.specs.ImportTrees.{counting_up, ranked_tree, import_tree, import_forest};

use crate::tables::{BY_RANK_1, BY_RANK_2, BY_RANK_3, IN_ORDER};
use std::alloc::Global;
use thr_huff::{Forest, Tree};
use vid_base::NoMem;

/// How many trees a setup header has, and how many of them belong to each group of places of coefficients.
const TREES: u8 = 80;

const ROWS: u8 = 16;

/// The tree of these tokens whose codes all have so many bits and count up.
#[tactic(auto, unfolding(crate::specs::ImportTrees::counting_up), using(crate::proofs::ImportLemmas::counting))]
fn counting_up(alloc: Global, width: u32, tokens: &[u8]) -> Result<Tree, NoMem>
    requires { length tokens.now ≡ 2 ^ width }
    ensures { IfOk result (λ tree. code_tree tree ≡ counting_up width tokens.now) }
{
    if width == 0 {
        return Ok(Tree::leaf(tokens[0]));
    }
    let (lower, upper) = tokens.split_at(tokens.len() / 2);
    let left = counting_up(alloc, width - 1, lower)?;
    let right = counting_up(alloc, width - 1, upper)?;
    Tree::branch(alloc, left, right)
}

/// The tree of tokens by rank: two codes behind 0, two behind 10, four behind 110, eight behind 1110 and sixteen behind 1111.
#[tactic(auto, unfolding(crate::specs::ImportTrees::ranked_tree))]
fn ranked_tree(alloc: Global, tokens: &[u8; 32]) -> Result<Tree, NoMem>
    ensures { IfOk result (λ tree. code_tree tree ≡ ranked_tree tokens.now) }
{
    let eight = counting_up(alloc, 3, &tokens[8..16])?;
    let sixteen = counting_up(alloc, 4, &tokens[16..32])?;
    let from_eight = Tree::branch(alloc, eight, sixteen)?;
    let four = counting_up(alloc, 2, &tokens[4..8])?;
    let from_four = Tree::branch(alloc, four, from_eight)?;
    let two = counting_up(alloc, 1, &tokens[2..4])?;
    let from_two = Tree::branch(alloc, two, from_four)?;
    let first = counting_up(alloc, 1, &tokens[0..2])?;
    Tree::branch(alloc, first, from_two)
}

/// The tree of a number, the same in each group.
#[tactic(auto, unfolding(crate::specs::ImportTrees::import_tree, crate::specs::Tables::by_rank_1, crate::specs::Tables::by_rank_2, crate::specs::Tables::by_rank_3))]
fn import_tree(alloc: Global, number: u8) -> Result<Tree, NoMem>
    ensures { IfOk result (λ tree. code_tree tree ≡ import_tree number) }
{
    match number {
        1 => ranked_tree(alloc, &BY_RANK_1),
        2 => ranked_tree(alloc, &BY_RANK_2),
        3 => ranked_tree(alloc, &BY_RANK_3),
        _ => counting_up(alloc, 5, &IN_ORDER),
    }
}

/// All trees.
#[tactic(auto, unfolding(crate::specs::ImportTrees::import_forest))]
fn import_trees(alloc: Global) -> Result<Vec<Tree>, NoMem>
    ensures { IfOk result (λ trees. map code_tree trees.items ≡ import_forest) }
{
    let mut trees = Vec::with_capacity(alloc, usize::from(TREES))?;
    'trees: for hti in 0..TREES {
        let tree = import_tree(alloc, hti % ROWS)?;
        trees.push(tree)?;
    }
    Ok(trees)
}

/// The forest of all trees.
#[tactic(auto, using(crate::proofs::ImportLemmas::is_import_forest))]
pub(crate) fn import_forest(alloc: Global) -> Result<Forest, NoMem>
    ensures { IfOk result (λ forest. forest ≡ import_forest) }
{
    let trees = import_trees(alloc)?;
    Forest::new(alloc, trees)
}

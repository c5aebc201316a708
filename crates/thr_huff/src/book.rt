// A tree with a table, so that a short code is taken at once (own).
ghost use Rattle.std.specs.Prelude.{◌≡◌, ◌≤◌, ◌<◌, [], IfOk, IfSome, OnErr, option_map};
ghost use Rattle.vid_base.specs.Bits.{digits};
ghost use Rattle.vid_base.specs.Reading.{GivesOrNoMem, SameEnd, Taken};
ghost use Rattle.thr_huff.specs.CodeTree.{code_tree};
ghost use Rattle.thr_huff.specs.Codes.{codes_of, front_token};
ghost use Rattle.thr_huff.specs.Trees.{IsTree, tree_at};
ghost use Rattle.thr_huff.specs.Tables.{IsTable, deeper, entry_of};

use crate::tree::{Tree, copied, read_tree, walk};
use std::alloc::{AllocError, Global};
use vid_base::{BitReader, Ended, NoMem, Refusal};

/// How many bits the table looks at.
const WINDOW: u32 = 8;

/// The most levels of a tree with its root.
const MOST_LEVELS: u32 = 33;

/// A token, and how many bits its code has.
#[derive(Clone, Copy)]
pub(crate) struct Entry {
    token: u8,
    len: u8,
}

/// A tree, and for each number of the next bits the token whose code they begin with.
#[derive(Drop)]
pub(crate) struct Book {
    pub(crate) tree: Tree,
    table: Vec<Option<Entry>>,
    ghost right: { IsTable (codes_of (code_tree tree)) table.items },
}

/// An entry of one tree of a branch, seen from the branch.
fn from_below(entry: Option<Entry>) -> Option<Entry>
    requires { IfSome entry (λ e. e.len < 255) }
    ensures { result ≡ option_map deeper entry }
{
    match entry {
        Some(Entry { token, len }) => Some(Entry {
            token,
            len: len + 1,
        }),
        None => None,
    }
}

/// The token whose code the lowest n bits of the window begin with.
fn look_up(tree: &Tree, window: u32, n: u32) -> Option<Entry>
    requires { n ≤ 8 }
    ensures value { result ≡ entry_of (codes_of (code_tree tree.now)) (digits n window) }
    ensures within { IfSome result (λ entry. entry.len ≤ n) }
{
    match tree {
        Tree::Leaf(token) => Some(Entry {
            token: *token,
            len: 0,
        }),
        Tree::Branch(left, right) => {
            if n == 0 {
                None
            } else if (window >> (n - 1)) % 2 == 1 {
                from_below(look_up(right, window, n - 1))
            } else {
                from_below(look_up(left, window, n - 1))
            }
        }
    }
}

impl Book {
    pub(crate) fn new(alloc: Global, tree: Tree) -> Result<Book, NoMem>
        ensures { IfOk result (λ book. book.tree ≡ tree) }
    {
        let mut table = Vec::with_capacity(alloc, 1 << WINDOW)?;
        'windows: for window in 0..1 << WINDOW {
            table.push(look_up(&tree, window, WINDOW))?;
        }
        Ok(Book { tree, table })
    }

    /// The same tree with the same table.
    pub(crate) fn copied(&self) -> Result<Book, AllocError>
        ensures { IfOk result (λ copy. code_tree copy.tree ≡ code_tree self.now.tree) }
    {
        let alloc = *self.table.allocator();
        let tree = copied(alloc, &self.tree)?;
        let table = Vec::from_slice(alloc, &self.table)?;
        Ok(Book { tree, table })
    }

    /// Reads one tree.
    pub(crate) fn read(alloc: Global, r: &mut BitReader) -> Result<Book, Refusal>
        ensures value { GivesOrNoMem (λ book. code_tree book.tree) result r.new.left (tree_at 33 0 r.old.left) }
        ensures tree { IfOk result (λ book. IsTree (code_tree book.tree)) }
        ensures end { SameEnd r.old r.new }
    {
        let mut leaves = 0;
        let tree = read_tree(alloc, r, MOST_LEVELS, &mut leaves)?;
        Ok(Book::new(alloc, tree)?)
    }

    /// The token whose code the eight bits of the window begin with.
    fn entry_at(&self, window: u32) -> Option<Entry>
        requires { window < 256 }
        ensures { result ≡ entry_of (codes_of (code_tree self.now.tree)) (digits 8 window) }
    {
        self.table[window as usize]
    }

    /// The token whose code stands at the front of the bits, and the same as `walk` gives.
    pub(crate) fn token(&self, r: &mut BitReader) -> Result<u8, Ended>
        ensures value { Taken result r.new.left (front_token (codes_of (code_tree self.now.tree)) r.old.left) }
        ensures ended { OnErr result (r.new.left ≡ []) }
        ensures end { SameEnd r.old r.new }
    {
        if let Some(window) = r.peek(WINDOW) {
            if let Some(entry) = self.entry_at(window) {
                r.take(u32::from(entry.len))?;
                return Ok(entry.token);
            }
        }
        // Rare, and by a reader of its own, so that the other can be kept in registers.
        let mut apart = r.copy();
        let token = walk(&self.tree, &mut apart);
        *r = apart;
        token
    }
}

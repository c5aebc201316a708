// The 80 trees of a setup header (Theora I, 6.4.4 and 7.7.3).
ghost use Rattle.std.specs.Prelude.{◌≡◌, ◌<◌, ◌++◌, [], ℕ, List, Bool, Some, Ok, map, is_some, IfOk, IfSome, IfNone, OnOk, OnErr, option_map};
ghost use Rattle.vid_base.specs.Reading.{GivesOrNoMem, KeptOnNoMem, SameEnd, Taken};
ghost use Rattle.thr_huff.specs.CodeTree.{code_tree};
ghost use Rattle.thr_huff.specs.Codes.{codes_at, front_token, code_of, code_bits};
ghost use Rattle.thr_huff.specs.Trees.{IsForest, forest_at, forest_bits};
ghost use Rattle.thr_huff.specs.Rows.{IsFullRow, full_row_of, has_all_tokens, is_full_row};

use crate::book::Book;
use crate::code::Code;
use crate::tree::{Tree, code_in, write_tree};
use std::alloc::{AllocError, Global};
use std::marker::Model;
use vid_base::{BitReader, BitWriter, Ended, NoMem, Refusal};

/// How many groups of trees a setup header has, how many trees each group has, and how many trees that makes.
const GROUPS: u8 = 5;

const ROWS: u8 = 16;

const TREES: usize = 80;

/// How many tokens there are.
const TOKENS: u8 = 32;

/// The 80 trees of a setup header: number n of group g is tree 16 g + n.
#[derive(Drop)]
pub struct Forest {
    books: Vec<Book>,
}

impl Model for Forest {
    ghost use Rattle.std.specs.Prelude.{List, map};
    ghost use Rattle.thr_huff.specs.CodeTree.{CodeTree, code_tree};
    ghost use Rattle.thr_huff.specs.Trees.{IsForest};
    ghost use Rattle.thr_huff.specs.TreeCode.{forest_code};

    ghost Value = { List CodeTree };

    ghost coded = { forest_code };

    ghost view = { λ f. map (λ b. code_tree b.tree) f.books.items };

    ghost invariant = { λ f. IsForest (map (λ b. code_tree b.tree) f.books.items) };
}

/// A copy has the same trees, and memory of its own.
impl Clone for Forest {
    ghost is_clone = { λ v w. w ≡ v };

    fn clone(&self) -> Result<Self, AllocError> {
        let mut books = Vec::with_capacity(*self.books.allocator(), TREES)?;
        'trees: for book in &self.books {
            books.push(book.copied()?)?;
        }
        Ok(Forest { books })
    }
}

/// A forest is 80 trees that a setup header can hold.
pub fn trees_fit_a_header(forest: &Forest)
    ensures { IsForest forest.now }
{
    let _ = &forest.books;
}

/// 80 trees, one behind the other.
fn read_trees(alloc: Global, r: &mut BitReader) -> Result<Forest, Refusal>
    ensures value { GivesOrNoMem (λ forest. forest) result r.new.left (forest_at r.old.left) }
    ensures end { SameEnd r.old r.new }
{
    let mut books = Vec::with_capacity(alloc, TREES)?;
    'trees: while books.len() < TREES {
        let book = Book::read(alloc, r)?;
        books.push(book)?;
    }
    Ok(Forest { books })
}

/// Reads 80 trees. The first fault in reading order is `Ended`, `TreeDeep` where a tree goes deeper than 32 bits, or
/// `TreeLeaves` where a tree has more than 32 leaves. Where the reader stands after a fault is left open; after `NoMem` it
/// is as it was.
pub fn read_forest(alloc: Global, r: &mut BitReader) -> Result<Forest, Refusal>
    ensures value { GivesOrNoMem (λ forest. forest) result r.new.left (forest_at r.old.left) }
    ensures memory { KeptOnNoMem result r.old r.new }
    ensures end { SameEnd r.old r.new }
{
    let start = r.copy();
    match read_trees(alloc, r) {
        Ok(forest) => Ok(forest),
        Err(Refusal::Bad(fault)) => Err(Refusal::Bad(fault)),
        Err(Refusal::NoMem) => {
            *r = start;
            Err(Refusal::NoMem)
        }
    }
}

/// Adds the bits of the 80 trees. After `NoMem` the bits that were there are followed by some of them.
pub fn write_forest(w: &mut BitWriter, forest: &Forest) -> Result<(), NoMem>
    ensures written { OnOk result (w.new ≡ w.old ++ forest_bits forest.now) }
    ensures memory { OnErr result ((more : List Bool) × (w.new ≡ w.old ++ more)) }
    ensures reads_back { (rest : List Bool) → forest_at (forest_bits forest.now ++ rest) ≡ Ok (forest.now, rest) }
{
    'trees: for book in &forest.books {
        write_tree(w, &book.tree)?;
    }
    Ok(())
}

impl Forest {
    /// The forest of these 80 trees, each with at most 32 leaves, codes of at most 32 bits and tokens below 32.
    pub fn new(alloc: Global, trees: Vec<Tree>) -> Result<Forest, NoMem>
        requires { IsForest (map code_tree trees.items) }
        ensures value { IfOk result (λ forest. forest ≡ map code_tree trees.items) }
    {
        let mut books = Vec::with_capacity(alloc, TREES)?;
        'trees: for tree in trees {
            books.push(Book::new(alloc, tree)?)?;
        }
        Ok(Forest { books })
    }

    /// The token whose code in tree hti stands at the front of the packet's bits. Where no code does, it is `Ended`, and
    /// the reader stands at the packet's end.
    pub fn token(&self, hti: u8, r: &mut BitReader) -> Result<u8, Ended>
        requires { hti < 80 }
        ensures value { Taken result r.new.left (front_token (codes_at self.now hti) r.old.left) }
        ensures ended { OnErr result (r.new.left ≡ []) }
        ensures end { SameEnd r.old r.new }
        ensures small { IfOk result (λ token. token < 32) }
    {
        let book = &self.books[usize::from(hti)];
        book.token(r)
    }

    /// The code of the first leaf of tree hti, in reading order, that holds the token; None where no leaf does.
    pub fn code(&self, hti: u8, token: u8) -> Option<Code>
        requires hti { hti < 80 }
        requires token { token < 32 }
        ensures value { option_map code_bits result ≡ code_of (codes_at self.now hti) token }
        ensures reads_back { IfSome result (λ code. (rest : List Bool) →
            front_token (codes_at self.now hti) (code_bits code ++ rest) ≡ Some (token, rest)) }
    {
        let book = &self.books[usize::from(hti)];
        code_in(&book.tree, token)
    }

    /// The least number, 0 to 15, whose trees hold all 32 tokens in each of the five groups; None where there is none.
    pub fn full_row(&self) -> Option<u8>
        ensures value { result ≡ full_row_of self.now }
        ensures full { IfSome result (λ number. (number < 16) × IsFullRow self.now number) }
        ensures least { IfSome result (λ number. (k : ℕ) → k < number → ¬ (IsFullRow self.now k)) }
        ensures none { IfNone result ((number : ℕ) → number < 16 → ¬ (IsFullRow self.now number)) }
    {
        self.first_full()
    }

    /// The first number whose trees hold all tokens.
    #[tactic(auto, unfolding(crate::specs::Rows::full_row_of))]
    fn first_full(&self) -> Option<u8>
        ensures { result ≡ full_row_of self.now }
    {
        (0..ROWS).find(|&number| self.is_full_row(number))
    }

    /// Whether the trees of this number hold all tokens.
    #[tactic(auto, unfolding(crate::specs::Rows::is_full_row))]
    fn is_full_row(&self, number: u8) -> bool
        requires { number < 16 }
        ensures { result ≡ is_full_row self.now number }
    {
        (0..GROUPS).all(|group| self.has_all_tokens(ROWS * group + number))
    }

    /// Whether a code of tree hti leads to the token.
    fn has_token(&self, hti: u8, token: u8) -> bool
        requires hti { hti < 80 }
        requires token { token < 32 }
        ensures { result ≡ is_some (code_of (codes_at self.now hti) token) }
    {
        self.code(hti, token).is_some()
    }

    /// Whether a code of tree hti leads to each token.
    #[tactic(auto, unfolding(crate::specs::Rows::has_all_tokens))]
    fn has_all_tokens(&self, hti: u8) -> bool
        requires { hti < 80 }
        ensures { result ≡ has_all_tokens (codes_at self.now hti) }
    {
        (0..TOKENS).all(|token| self.has_token(hti, token))
    }
}

// The pages of a track that are kept (own).
ghost use Rattle.std.specs.Prelude.{◌≡◌, ◌≤◌, ◌<◌, ◌+◌, ◌*◌, ◌++◌, ◌∷◌, [], All, OnOk, length, sum, get_or, vec_len};

use std::alloc::{AllocError, Global};

/// A page: the byte at which it begins, its checksum field, and where its lacing values stand among those of all pages.
#[derive(Clone, Copy)]
pub(crate) struct Mark {
    pub(crate) at: u64,
    pub(crate) first: usize,
    pub(crate) checksum: u32,
    pub(crate) count: u8,
}

/// The pages of a track, and the lacing values of all of them one behind the other: 24 bytes a page, and its lacing values.
#[derive(Drop)]
pub(crate) struct Pages {
    alloc: Global,
    pub(crate) marks: Vec<Mark>,
    pub(crate) lacing: Vec<u8>,
    ghost inside: { All (λ mark. mark.first + mark.count ≤ vec_len lacing) marks.items },
}

/// A page with its lacing values.
#[derive(Clone, Copy)]
pub(crate) struct Kept<'a> {
    pub(crate) at: u64,
    pub(crate) checksum: u32,
    pub(crate) lacing: &'a [u8],
}

/// The bytes of a page before its lacing bytes (RFC 3533, 6).
pub(crate) const HEADER: usize = 27;

// The sum of lacing values.
fn total(lacing: &[u8]) -> usize
    requires { length lacing.now ≤ 255 }
    ensures sum { result ≡ sum lacing.now }
    ensures bound { result ≤ 255 * 255 }
{
    let mut total = 0usize;
    'lacing: for size in lacing {
        total += usize::from(*size);
    }
    total
}

// How many bytes a page with these lacing values takes.
pub(crate) fn page_size(lacing: &[u8]) -> usize
    requires { length lacing.now ≤ 255 }
    ensures value { result ≡ 27 + length lacing.now + sum lacing.now }
    ensures most { result ≤ 65307 }
{
    HEADER + lacing.len() + total(lacing)
}

impl Pages {
    ghost use Rattle.src_index.specs.Pages.{marks_of, kept_mark, no_mark};

    // No pages.
    pub(crate) fn new(alloc: Global) -> Pages
        ensures { marks_of result ≡ [] }
    {
        Pages {
            alloc,
            marks: Vec::new(alloc),
            lacing: Vec::new(alloc),
        }
    }

    // Their allocator.
    pub(crate) fn alloc(&self) -> Global {
        self.alloc
    }

    // How many there are.
    pub(crate) fn len(&self) -> usize
        ensures { result ≡ length (marks_of self.now) }
    {
        self.marks.len()
    }

    // A page more.
    #[tactic(auto, using(crate::proofs::PagesLemmas::marks_more, crate::proofs::PagesLemmas::inside_more))]
    pub(crate) fn push(&mut self, at: u64, checksum: u32, lacing: &[u8]) -> Result<(), AllocError>
        requires { length lacing.now ≤ 255 }
        ensures { OnOk result (marks_of self.new ≡ marks_of self.old ++ record { at = at; checksum = checksum; lacing = lacing.now } ∷ []) }
    {
        let first = self.lacing.len();
        self.lacing.extend_from_slice(lacing)?;
        self.marks.push(Mark {
            at,
            first,
            checksum,
            count: lacing.len() as u8,
        })?;
        Ok(())
    }

    // The page with this number.
    pub(crate) fn page(&self, number: usize) -> Kept<'_>
        requires { number < length (marks_of self.now) }
        ensures mark { kept_mark result ≡ get_or (marks_of self.now) number no_mark }
        ensures few { length result.lacing.now ≤ 255 }
    {
        let mark = self.marks[number];
        Kept {
            at: mark.at,
            checksum: mark.checksum,
            lacing: &self.lacing[mark.first..mark.first + usize::from(mark.count)],
        }
    }
}

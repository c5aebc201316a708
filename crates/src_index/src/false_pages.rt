// False pages: whole pages with a right checksum inside the pages of a file (own).
ghost use Rattle.std.specs.Prelude.{◌≡◌, ◌<◌, ◌≤◌, ◌+◌, ◌*◌, ℕ, List, true, false, IsOk, is_ok, IfSome, IfNone, drop, length};
ghost use Rattle.ogg_page.specs.Page.{page_at_front};
ghost use Rattle.src_index.specs.Windows.{OpensTwo};

use memchr::memchr;
use ogg_page::read_window;

// Whether a page begins with the byte `at` of a window.
fn is_page(window: &[u8], at: usize) -> bool
    requires { at < length window.now }
    ensures { (bytes : List ℕ) → at < 65307 → OpensTwo window.now bytes → result ≡ is_ok (page_at_front (drop at bytes)) }
{
    read_window(&window[at..]).is_ok()
}

// The first byte from `from` on, and before `past`, with which a page can begin: its first letter.
fn next_letter(window: &[u8], from: usize, past: usize) -> Option<usize>
    requires { (from ≤ past) × (past ≤ length window.now) }
    ensures within { IfSome result (λ at. (from ≤ at) × (at < past)) }
    ensures before { IfSome result (λ at. (bytes : List ℕ) (place : ℕ) → OpensTwo window.now bytes → from ≤ place → place < at → ¬ IsOk (page_at_front (drop place bytes))) }
    ensures none { IfNone result ((bytes : List ℕ) (place : ℕ) → OpensTwo window.now bytes → from ≤ place → place < past → ¬ IsOk (page_at_front (drop place bytes))) }
{
    match memchr(b'O', &window[from..past]) {
        Some(found) => Some(from + found),
        None => None,
    }
}

/// Whether a page begins inside the page of so many bytes at the front of a window. The letter with which a page begins is
/// looked for first, so that few places are looked at.
pub(crate) fn has_false_page(window: &[u8], size: usize) -> bool
    requires size { (0 < size) × (size ≤ length window.now) × (size ≤ 65307) }
    ensures none { result ≡ false → (bytes : List ℕ) (place : ℕ) → OpensTwo window.now bytes → 0 < place → place < size → ¬ IsOk (page_at_front (drop place bytes)) }
    ensures one { result ≡ true → (bytes : List ℕ) → OpensTwo window.now bytes → (place : ℕ) × (0 < place) × (place < size) × IsOk (page_at_front (drop place bytes)) }
{
    let mut from = 1usize;
    'letters: while let Some(at) = next_letter(window, from, size) {
        if is_page(window, at) {
            return true;
        }
        from = at + 1;
    }
    false
}

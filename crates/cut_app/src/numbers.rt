// Numbers in the words of a command line (own).
ghost use Rattle.std.specs.Prelude.{◌≡◌, ◌≤◌, IfSome};
ghost use Rattle.cut_make.specs.Films.{IsFilm};
ghost use Rattle.cut_app.specs.Imports.{IsCoding};
ghost use Rattle.cut_app.specs.Numbers.{coding_in, film_in, number_within};

use cut_list::read_number;
use cut_make::Film;

/// The most pictures of a film.
const MOST_FRAMES: u32 = 10_000;

/// The most samples in a row of a film's pictures, and the most rows.
const MOST_SAMPLES: u32 = 1024;

/// The greatest quantiser index.
const MOST_INDEX: u32 = 63;

/// The most frames from one key frame to the next: as many as six low bits of a granule position count.
const MOST_KEYS: u32 = 64;

/// How an import codes its pictures.
#[derive(Clone, Copy)]
pub(crate) struct Coding {
    /// The quantiser index of all frames.
    pub(crate) qi: u8,
    /// Frames from one key frame to the next.
    pub(crate) keys: u32,
}

// The number that a word says, where it says one within these limits.
#[tactic(auto, unfolding(crate::specs::Numbers::number_within))]
fn number_within(least: u32, most: u32, word: &str) -> Option<u32>
    ensures value { result ≡ number_within least most word.now }
    ensures least { IfSome result (λ n. least ≤ n) }
    ensures most { IfSome result (λ n. n ≤ most) }
{
    match read_number(word.as_bytes()) {
        Some(n) if least <= n && n <= most => Some(n),
        _ => None,
    }
}

/// The film that four words say: START, FRAMES, W and H.
#[tactic(auto, unfolding(crate::specs::Numbers::film_in))]
pub(crate) fn film_in(start: &str, frames: &str, w: &str, h: &str) -> Option<Film>
    ensures value { result ≡ film_in start.now frames.now w.now h.now }
    ensures film { IfSome result IsFilm }
{
    let start = read_number(start.as_bytes())?;
    let frames = number_within(1, MOST_FRAMES, frames)?;
    let w = number_within(1, MOST_SAMPLES, w)?;
    let h = number_within(1, MOST_SAMPLES, h)?;
    Some(Film {
        start,
        frames,
        w,
        h,
    })
}

/// How two words say to code: QI and KEYS.
#[tactic(auto, unfolding(crate::specs::Numbers::coding_in))]
pub(crate) fn coding_in(qi: &str, keys: &str) -> Option<Coding>
    ensures value { result ≡ coding_in qi.now keys.now }
    ensures coding { IfSome result IsCoding }
{
    let qi = number_within(0, MOST_INDEX, qi)?;
    let keys = number_within(1, MOST_KEYS, keys)?;
    Some(Coding { qi: qi as u8, keys })
}

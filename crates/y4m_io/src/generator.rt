// Pictures for tests (own).
ghost use Rattle.std.specs.Prelude.{◌≡◌, ◌<◌, ◌≤◌, length};
ghost use Rattle.y4m_io.specs.Pictures.{samples_of, IsPicture};
ghost use Rattle.y4m_io.specs.Generator.{by_places, cb_at, cr_at, generated, luma_at, tri};

use crate::picture::{Picture, columns_of};

/// Which frame of which film.
#[derive(Clone, Copy)]
struct Frame {
    start: u32,
    n: u32,
}

// Up from 0 to 63 and down again, every 128.
#[tactic(auto, unfolding(crate::specs::Generator::tri))]
fn tri(v: u64) -> u8
    ensures value { result ≡ tri v }
    ensures low { result < 64 }
{
    let m = v % 128;
    (if m < 64 { m } else { 127 - m }) as u8
}

impl Frame {
    fn luma(self, x: u32, y: u32) -> u8
        ensures { result ≡ luma_at self.start self.n x y }
    {
        let across = u64::from(x) + 2 * u64::from(self.n) + u64::from(self.start % 128);
        let down = u64::from(y) + u64::from(self.n) + u64::from(self.start / 128 % 128);
        32 + tri(across) + tri(down)
    }

    fn cb(self, x: u32) -> u8
        ensures { result ≡ cb_at self.start self.n x }
    {
        96 + tri(u64::from(x) + u64::from(self.n) + u64::from(self.start % 128))
    }

    fn cr(self, y: u32) -> u8
        ensures { result ≡ cr_at self.start self.n y }
    {
        160 - tri(u64::from(y) + u64::from(self.n) + u64::from(self.start / 128 % 128))
    }

    fn fill_luma(self, into: &mut [u8], columns: u32)
        requires some { 0 < columns }
        requires size { length into.old ≤ 33554432 }
        ensures { into.new ≡ by_places (luma_at self.start self.n) columns (length into.old) }
    {
        for k in 0..into.len() {
            into[k] = self.luma(k as u32 % columns, k as u32 / columns);
        }
    }

    fn fill_cb(self, into: &mut [u8], columns: u32)
        requires some { 0 < columns }
        requires size { length into.old ≤ 33554432 }
        ensures { into.new ≡ by_places (λ x y. cb_at self.start self.n x) columns (length into.old) }
    {
        for k in 0..into.len() {
            into[k] = self.cb(k as u32 % columns);
        }
    }

    fn fill_cr(self, into: &mut [u8], columns: u32)
        requires some { 0 < columns }
        requires size { length into.old ≤ 33554432 }
        ensures { into.new ≡ by_places (λ x y. cr_at self.start self.n y) columns (length into.old) }
    {
        for k in 0..into.len() {
            into[k] = self.cr(k as u32 / columns);
        }
    }
}

/// Fills a picture in 4:2:0 with frame n of the film that begins at `start`.
pub fn make_frame(into: &mut Picture, start: u32, n: u32)
    requires picture { IsPicture (samples_of into.old) }
    requires format { into.old.pf ≡ 0 }
    ensures value { samples_of into.new ≡ generated start n into.old.w into.old.h }
    ensures whole { IsPicture (samples_of into.new) }
{
    let frame = Frame { start, n };
    let columns = columns_of(into.w, 0);
    let w = into.w;
    frame.fill_luma(&mut into.y, w);
    frame.fill_cb(&mut into.cb, columns);
    frame.fill_cr(&mut into.cr, columns);
}

// Eight lines across an edge, filtered at once (Theora I, 7.10.1 and 7.10.2).
ghost use Rattle.std.specs.Prelude.{◌≡◌, ◌+◌, ◌-◌, ◌<◌, ◌≤◌, pos, ◌+ℤ◌, min};
ghost use Rattle.thr_loop.specs.EdgeRule.{response, before_edge, behind_edge};
ghost use Rattle.thr_loop.specs.Lanes.{AreFiltered};

/// The samples of eight lines across an edge: entry k of each list is of line k.
#[derive(Clone, Copy)]
pub struct Lines {
    pub p0: [u8; 8],
    pub p1: [u8; 8],
    pub p2: [u8; 8],
    pub p3: [u8; 8],
}

/// The samples of eight lines on both sides of the edge.
#[derive(Clone, Copy)]
pub struct Sides {
    pub before: [u8; 8],
    pub behind: [u8; 8],
}

/// The response of a line and 256, so that it isn't below 0.
fn raised_response(p0: u8, p1: u8, p2: u8, p3: u8) -> u16
    ensures value { pos result ≡ response p0 p1 p2 p3 +ℤ pos 256 }
    ensures low { 128 ≤ result }
    ensures high { result ≤ 384 }
{
    let up = u16::from(p0) + 3 * u16::from(p2);
    let down = 3 * u16::from(p1) + u16::from(p3);
    (up + 2052 - down) / 8
}

/// What the limit leaves of a response's size.
fn kept(size: u16, limit: u8) -> u8
    requires size { size ≤ 128 }
    requires limit { limit < 128 }
    ensures { result ≡ min size (limit + limit - size) }
{
    let twice = u16::from(limit) + u16::from(limit);
    size.min(twice.saturating_sub(size)) as u8
}

/// How far the sample before the edge rises and the one behind it falls.
fn rise(raised: u16, limit: u8) -> u8
    requires high { raised ≤ 384 }
    requires limit { limit < 128 }
    ensures { result ≡ min (raised - 256) (limit + limit - (raised - 256)) }
{
    kept(raised.saturating_sub(256), limit)
}

/// How far the sample before the edge falls and the one behind it rises.
fn fall(raised: u16, limit: u8) -> u8
    requires low { 128 ≤ raised }
    requires limit { limit < 128 }
    ensures { result ≡ min (256 - raised) (limit + limit - (256 - raised)) }
{
    kept(256u16.saturating_sub(raised), limit)
}

fn before(p0: u8, p1: u8, p2: u8, p3: u8, limit: u8) -> u8
    requires { limit < 128 }
    ensures { result ≡ before_edge limit p0 p1 p2 p3 }
{
    let raised = raised_response(p0, p1, p2, p3);
    p1.saturating_add(rise(raised, limit))
        .saturating_sub(fall(raised, limit))
}

fn behind(p0: u8, p1: u8, p2: u8, p3: u8, limit: u8) -> u8
    requires { limit < 128 }
    ensures { result ≡ behind_edge limit p0 p1 p2 p3 }
{
    let raised = raised_response(p0, p1, p2, p3);
    p2.saturating_add(fall(raised, limit))
        .saturating_sub(rise(raised, limit))
}

/// The samples on both sides of the edge, filtered by a limit.
pub fn filtered(lines: &Lines, limit: u8) -> Sides
    requires { limit < 128 }
    ensures { AreFiltered limit lines.now result }
{
    let Lines { p0, p1, p2, p3 } = *lines;
    let mut sides = Sides {
        before: [0; 8],
        behind: [0; 8],
    };
    for k in 0..8 {
        sides.before[k] = before(p0[k], p1[k], p2[k], p3[k], limit);
        sides.behind[k] = behind(p0[k], p1[k], p2[k], p3[k], limit);
    }
    sides
}

// How far the samples of two blocks are apart (own).
ghost use Rattle.std.specs.Prelude.{◌≡◌, ◌+◌, ◌≤◌, [], sum_by, slice_index, slice_index_or};
ghost use Rattle.std.specs.List.{range_with_len};
ghost use Rattle.std.specs.Int.{abs_diff};
ghost use Rattle.enc_search.specs.Searched.{block_distance};

/// Two samples.
fn apart(a: u8, b: u8) -> u32
    ensures value { result ≡ abs_diff a b }
    ensures small { result ≤ 255 }
{
    u32::from(a.abs_diff(b))
}

/// Two rows. All are loaded before the first sum, so that vectors can hold them.
fn row_distance(a: &[u8; 8], b: &[u8; 8]) -> u32
    ensures value { result ≡ sum_by (λ u. abs_diff (slice_index a.now u) (slice_index b.now u)) (range_with_len 0 8) }
    ensures small { result ≤ 2040 }
{
    let [a, b, c, d, e, f, g, h] = [
        apart(a[0], b[0]),
        apart(a[1], b[1]),
        apart(a[2], b[2]),
        apart(a[3], b[3]),
        apart(a[4], b[4]),
        apart(a[5], b[5]),
        apart(a[6], b[6]),
        apart(a[7], b[7]),
    ];
    a + b + c + d + e + f + g + h
}

/// Two blocks of eight rows.
#[tactic(auto, unfolding(crate::specs::Searched::block_distance, crate::specs::Searched::row_distance))]
pub(crate) fn block_distance(a: &[[u8; 8]; 8], b: &[[u8; 8]; 8]) -> u32
    ensures value { result ≡ block_distance (λ u v. slice_index (slice_index_or a.now v []) u) (λ u v. slice_index (slice_index_or b.now v []) u) }
    ensures small { result ≤ 16320 }
{
    row_distance(&a[0], &b[0])
        + row_distance(&a[1], &b[1])
        + row_distance(&a[2], &b[2])
        + row_distance(&a[3], &b[3])
        + row_distance(&a[4], &b[4])
        + row_distance(&a[5], &b[5])
        + row_distance(&a[6], &b[6])
        + row_distance(&a[7], &b[7])
}

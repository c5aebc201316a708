// Tokens by rank (own): the first has the shortest code.

/// All tokens in their order.
pub(crate) const IN_ORDER: [u8; 32] = [
    0, 1, 2, 3, 4, 5, 6, 7, 8, 9, 10, 11, 12, 13, 14, 15, 16, 17, 18, 19, 20, 21, 22, 23, 24, 25,
    26, 27, 28, 29, 30, 31,
];

/// Tokens by their rank in the trees of number 1.
pub(crate) const BY_RANK_1: [u8; 32] = [
    0, 1, 9, 10, 2, 3, 7, 23, 4, 5, 11, 12, 24, 13, 8, 30, 6, 14, 15, 16, 17, 18, 19, 20, 21, 22,
    25, 26, 27, 28, 29, 31,
];

/// Tokens by their rank in the trees of number 2.
pub(crate) const BY_RANK_2: [u8; 32] = [
    9, 10, 0, 11, 12, 13, 14, 1, 15, 16, 17, 18, 19, 20, 2, 3, 4, 5, 6, 7, 8, 21, 22, 23, 24, 25,
    26, 27, 28, 29, 30, 31,
];

/// Tokens by their rank in the trees of number 3.
pub(crate) const BY_RANK_3: [u8; 32] = [
    7, 8, 0, 23, 24, 25, 26, 27, 28, 29, 30, 31, 9, 10, 1, 2, 3, 4, 5, 6, 11, 12, 13, 14, 15, 16,
    17, 18, 19, 20, 21, 22,
];

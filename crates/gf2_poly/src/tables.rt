// The minimal polynomials of the powers 1, 3, 5 and so on to 31 of x.
pub(crate) static MINIMALS: [u16; 16] = [
    0x201b, 0x26b1, 0x2993, 0x274f, 0x31e1, 0x23a3, 0x3079, 0x22bf, 0x2fff, 0x3a29, 0x39d3, 0x3827,
    0x355d, 0x3315, 0x3f45, 0x3d4d,
];

// The generators for 1 to 16 errors, each in two halves of 128 bits: the coefficients from x^128 on, and those below.
pub(crate) static GENERATORS: [[u128; 2]; 16] = [
    [0x0, 0x201b],
    [0x0, 0x4d5154b],
    [0x0, 0xbaf5b2bded],
    [0x0, 0x14523043ab86ab],
    [0x0, 0x3d694bc056ac0d78b],
    [0x0, 0x7f3cc930e4f0dcb9b17d],
    [0x0, 0x80008086b4d380be68d2da5],
    [0x0, 0x115f914e07b0c138741c5c4fb23],
    [0x0, 0x2d8aa10efe51eb9ccab1b3e6b626e1],
    [0x6, 0x5a4ef0d287c9a24ede0ab0157e0b37c9],
    [0x98b1, 0xf6997f81c8a478e9a773982762f4030b],
    [0x1e487325, 0x6115a56784a6940a4c6e6d7e1205e051],
    [0x24c03589743, 0x1417651457c1e8703f799e299b7557cd],
    [0x6bbbe749962881, 0xa660537c15695aea1583d46221885329],
    [0x99815beb3fe430d04, 0x8b8e16b3f03aaeebf13dc4a3b1caf2cd],
    [0x1cbbe3f0dbec563b5fb20, 0xff07f7aa45ff026fb378a601cdd0fdd1],
];

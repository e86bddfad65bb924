// The generators of the code over steps of 1024 bytes. Written by a script.

/// For 1 to 16 wrong bits, each in two halves of 128 bits: the coefficients from x^128 on, and those below.
pub(crate) static GENERATORS: [[u128; 2]; 16] = [
    [0x0, 0x402b],
    [0x0, 0x125bf9eb],
    [0x0, 0x4ffcf132d51],
    [0x0, 0x1653b2211ae15c1],
    [0x0, 0x7d24d41deee32a4595],
    [0x0, 0x1057c4909a5262c843fcbd],
    [0x0, 0x6d28d63dbcf0a881d409d1429],
    [0x0, 0x192d612e23675eda463552df84609],
    [0x0, 0x61d31a442a9777e22cc08790ae3d9477],
    [0x1dbf, 0xd25eb862e4274cbbd64bda7f7b65cc0f],
    [0x6583162, 0x47e8be263bd31142a71daf3ccc9a44ff],
    [0x14062dbea98, 0x69b262cd23a39069528fe7d7d11905a5],
    [0x7bff8617dbd345, 0x8ed7450b62317894334ba4941ad8b54f],
    [0x1a16115bc270dde99a, 0x48b101d34989850f822700c7008607fb],
    [0x5c864708072ac49f019bb, 0xa8c77ae3394dcb77c62651de1e14e573],
    [
        0x122f1755614a4c377fc816ca0,
        0xbd3e8f407385c3f4ddef681c94db411,
    ],
];

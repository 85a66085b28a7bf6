//! Worked files, as they are written.

/// A log or edits file with number 1: the header, and edit 1 of region 1, a put of row `r`, column `f:q`, timestamp 1,
/// value `v`, written at 1000; after it a closed gate.
pub(crate) const LOG_1: &[u8] = &[
    b'H', b'W', b'L', b'1', 0, 0, 0, 2, 0, 0, 0, 0, 0, 0, 0, 1, 0xA5, 1, 0, 0, 0, 0x30, 0, 0, 0, 1,
    0, 0, 0, 0, 0, 0, 0, 1, 0, 0, 0, 0, 0, 0, 3, 0xE8, 0, 0, 0, 1, 0, 0, 0, 0x0F, 0, 0, 0, 1, 0, 1,
    b'r', 1, b'f', b'q', 0, 0, 0, 0, 0, 0, 0, 1, 4, b'v', 0,
];

/// The same with number 2.
pub(crate) const LOG_2: &[u8] = &[
    b'H', b'W', b'L', b'1', 0, 0, 0, 2, 0, 0, 0, 0, 0, 0, 0, 2, 0xA5, 1, 0, 0, 0, 0x30, 0, 0, 0, 1,
    0, 0, 0, 0, 0, 0, 0, 1, 0, 0, 0, 0, 0, 0, 3, 0xE8, 0, 0, 0, 1, 0, 0, 0, 0x0F, 0, 0, 0, 1, 0, 1,
    b'r', 1, b'f', b'q', 0, 0, 0, 0, 0, 0, 0, 1, 4, b'v', 0,
];

/// The same with number 2 and value `w`.
pub(crate) const OTHER_LOG_2: &[u8] = &[
    b'H', b'W', b'L', b'1', 0, 0, 0, 2, 0, 0, 0, 0, 0, 0, 0, 2, 0xA5, 1, 0, 0, 0, 0x30, 0, 0, 0, 1,
    0, 0, 0, 0, 0, 0, 0, 1, 0, 0, 0, 0, 0, 0, 3, 0xE8, 0, 0, 0, 1, 0, 0, 0, 0x0F, 0, 0, 0, 1, 0, 1,
    b'r', 1, b'f', b'q', 0, 0, 0, 0, 0, 0, 0, 1, 4, b'w', 0,
];

/// A log with number 1, with that put as edit 1 of region 1 and as edit 2 of it.
pub(crate) const TWO_EDITS_LOG_1: &[u8] = &[
    b'H', b'W', b'L', b'1', 0, 0, 0, 2, 0, 0, 0, 0, 0, 0, 0, 1, 0xA5, 1, 0, 0, 0, 0x30, 0, 0, 0, 1,
    0, 0, 0, 0, 0, 0, 0, 1, 0, 0, 0, 0, 0, 0, 3, 0xE8, 0, 0, 0, 1, 0, 0, 0, 0x0F, 0, 0, 0, 1, 0, 1,
    b'r', 1, b'f', b'q', 0, 0, 0, 0, 0, 0, 0, 1, 4, b'v', 0xA5, 1, 0, 0, 0, 0x30, 0, 0, 0, 1, 0, 0,
    0, 0, 0, 0, 0, 2, 0, 0, 0, 0, 0, 0, 3, 0xE8, 0, 0, 0, 1, 0, 0, 0, 0x0F, 0, 0, 0, 1, 0, 1, b'r',
    1, b'f', b'q', 0, 0, 0, 0, 0, 0, 0, 1, 4, b'v', 0,
];

/// A log with number 1, with that put as edit 1 of region 1 and as edit 1 of region 2.
pub(crate) const TWO_REGIONS_LOG_1: &[u8] = &[
    b'H', b'W', b'L', b'1', 0, 0, 0, 2, 0, 0, 0, 0, 0, 0, 0, 1, 0xA5, 1, 0, 0, 0, 0x30, 0, 0, 0, 1,
    0, 0, 0, 0, 0, 0, 0, 1, 0, 0, 0, 0, 0, 0, 3, 0xE8, 0, 0, 0, 1, 0, 0, 0, 0x0F, 0, 0, 0, 1, 0, 1,
    b'r', 1, b'f', b'q', 0, 0, 0, 0, 0, 0, 0, 1, 4, b'v', 0xA5, 1, 0, 0, 0, 0x30, 0, 0, 0, 2, 0, 0,
    0, 0, 0, 0, 0, 1, 0, 0, 0, 0, 0, 0, 3, 0xE8, 0, 0, 0, 1, 0, 0, 0, 0x0F, 0, 0, 0, 1, 0, 1, b'r',
    1, b'f', b'q', 0, 0, 0, 0, 0, 0, 0, 1, 4, b'v', 0,
];

/// A store of region 1 with that put as number 1: it covers the numbers 1 to 1, and has one cell.
pub(crate) const STORE_OF_1: &[u8] = &[
    0xA5, b'H', b'W', b'S', b'2', 0, 0, 0, 1, 0, 0, 0, 0, 0, 0, 0, 0, 0, 1, 0, 0, 0, 0, 0, 0, 0, 1,
    0, 0, 0, 0, 0, 0, 0, 1, 0, 0, 0, 0, 0, 0, 0, 1, 0, 0, 0, 0x0F, 0, 0, 0, 1, 0, 1, b'r', 1, b'f',
    b'q', 0, 0, 0, 0, 0, 0, 0, 1, 4, b'v', 0, 0,
];

/// The same of region 2.
pub(crate) const STORE_OF_2: &[u8] = &[
    0xA5, b'H', b'W', b'S', b'2', 0, 0, 0, 2, 0, 0, 0, 0, 0, 0, 0, 0, 0, 1, 0, 0, 0, 0, 0, 0, 0, 1,
    0, 0, 0, 0, 0, 0, 0, 1, 0, 0, 0, 0, 0, 0, 0, 1, 0, 0, 0, 0x0F, 0, 0, 0, 1, 0, 1, b'r', 1, b'f',
    b'q', 0, 0, 0, 0, 0, 0, 0, 1, 4, b'v', 0, 0,
];

/// A store of region 1 with that put as number 2: it covers the numbers 2 to 2.
pub(crate) const STORE_OF_EDIT_2: &[u8] = &[
    0xA5, b'H', b'W', b'S', b'2', 0, 0, 0, 1, 0, 0, 0, 0, 0, 0, 0, 0, 0, 2, 0, 0, 0, 0, 0, 0, 0, 2,
    0, 0, 0, 0, 0, 0, 0, 1, 0, 0, 0, 0, 0, 0, 0, 2, 0, 0, 0, 0x0F, 0, 0, 0, 1, 0, 1, b'r', 1, b'f',
    b'q', 0, 0, 0, 0, 0, 0, 0, 1, 4, b'v', 0, 0,
];

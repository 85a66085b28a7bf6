//! Worked files, as they are written.

/// A log with number 1 and three edits of region 1, of row `r` and column `f:q`: a put at 5, a delete of the column at 5, and a
/// put at 6; after it a closed gate.
pub(crate) const THREE_EDITS: &[u8] = &[
    b'H', b'W', b'L', b'1', 0, 0, 0, 2, 0, 0, 0, 0, 0, 0, 0, 1, 0xA5, 1, 0, 0, 0, 0x30, 0, 0, 0, 1,
    0, 0, 0, 0, 0, 0, 0, 1, 0, 0, 0, 0, 0, 0, 3, 0xE8, 0, 0, 0, 1, 0, 0, 0, 0x0F, 0, 0, 0, 1, 0, 1,
    b'r', 1, b'f', b'q', 0, 0, 0, 0, 0, 0, 0, 5, 4, b'a', 0xA5, 1, 0, 0, 0, 0x2F, 0, 0, 0, 1, 0, 0,
    0, 0, 0, 0, 0, 2, 0, 0, 0, 0, 0, 0, 3, 0xE8, 0, 0, 0, 1, 0, 0, 0, 0x0F, 0, 0, 0, 0, 0, 1, b'r',
    1, b'f', b'q', 0, 0, 0, 0, 0, 0, 0, 5, 0x0C, 0xA5, 1, 0, 0, 0, 0x30, 0, 0, 0, 1, 0, 0, 0, 0, 0,
    0, 0, 3, 0, 0, 0, 0, 0, 0, 3, 0xE8, 0, 0, 0, 1, 0, 0, 0, 0x0F, 0, 0, 0, 1, 0, 1, b'r', 1, b'f',
    b'q', 0, 0, 0, 0, 0, 0, 0, 6, 4, b'b', 0,
];

/// A store of region 1 from 1 to 1 with a put of row `r`, column `f:q` at 5.
pub(crate) const STORE_OF_A_PUT: &[u8] = &[
    0xA5, b'H', b'W', b'S', b'2', 0, 0, 0, 1, 0, 0, 0, 0, 0, 0, 0, 0, 0, 1, 0, 0, 0, 0, 0, 0, 0, 1,
    0, 0, 0, 0, 0, 0, 0, 1, 0, 0, 0, 0, 0, 0, 0, 1, 0, 0, 0, 0x0F, 0, 0, 0, 1, 0, 1, b'r', 1, b'f',
    b'q', 0, 0, 0, 0, 0, 0, 0, 5, 4, b'a', 0, 0,
];

/// A store of region 1 from 2 to 2 with a delete of that column at 5.
pub(crate) const STORE_OF_A_DELETE: &[u8] = &[
    0xA5, b'H', b'W', b'S', b'2', 0, 0, 0, 1, 0, 0, 0, 0, 0, 0, 0, 0, 0, 2, 0, 0, 0, 0, 0, 0, 0, 2,
    0, 0, 0, 0, 0, 0, 0, 1, 0, 0, 0, 0, 0, 0, 0, 2, 0, 0, 0, 0x0F, 0, 0, 0, 0, 0, 1, b'r', 1, b'f',
    b'q', 0, 0, 0, 0, 0, 0, 0, 5, 0x0C, 0, 0,
];

/// A store of region 1 of the scope 1 from 1 to 1 with that put.
pub(crate) const IN_THE_PLACE_OF_ONE: &[u8] = &[
    0xA5, b'H', b'W', b'S', b'2', 0, 0, 0, 1, 1, 0, 0, 0, 0, 0, 0, 0, 0, 1, 0, 0, 0, 0, 0, 0, 0, 1,
    0, 0, 0, 0, 0, 0, 0, 1, 0, 0, 0, 0, 0, 0, 0, 1, 0, 0, 0, 0x0F, 0, 0, 0, 1, 0, 1, b'r', 1, b'f',
    b'q', 0, 0, 0, 0, 0, 0, 0, 5, 4, b'a', 0, 0,
];

//! Files of version 1 and stores `HWS1`, which are read and never written, alone and beside such as are written. All are of
//! region 1, and each edit puts the cell of the worked texts.

use crate::files::File;
use crate::opened::{Kept, Want};
use crate::texts::STORE_OF_EDIT_2;
use disk_images::NameKind;

/// A log of version 1 with number 1, with the put of the worked texts as edits 1 and 2 of region 1.
const FORMER_LOG: &[u8] = &[
    b'H', b'W', b'L', b'1', 0, 0, 0, 1, 0, 0, 0, 0, 0, 0, 0, 1, 0xA5, 1, 0, 0, 0, 0x30, 0, 0, 0, 1,
    0, 0, 0, 0, 0, 0, 0, 1, 0, 0, 0, 0, 0, 0, 3, 0xE8, 0, 0, 0, 1, 0, 0, 0, 0x0F, 0, 0, 0, 1, 0, 1,
    b'r', 1, b'f', b'q', 0, 0, 0, 0, 0, 0, 0, 1, 4, b'v', 0xA5, 1, 0, 0, 0, 0x30, 0, 0, 0, 1, 0, 0,
    0, 0, 0, 0, 0, 2, 0, 0, 0, 0, 0, 0, 3, 0xE8, 0, 0, 0, 1, 0, 0, 0, 0x0F, 0, 0, 0, 1, 0, 1, b'r',
    1, b'f', b'q', 0, 0, 0, 0, 0, 0, 0, 1, 4, b'v', 0,
];

/// An edits file of version 1 with number 2, with that put as edit 3.
const FORMER_EDITS: &[u8] = &[
    b'H', b'W', b'L', b'1', 0, 0, 0, 1, 0, 0, 0, 0, 0, 0, 0, 2, 0xA5, 1, 0, 0, 0, 0x30, 0, 0, 0, 1,
    0, 0, 0, 0, 0, 0, 0, 3, 0, 0, 0, 0, 0, 0, 3, 0xE8, 0, 0, 0, 1, 0, 0, 0, 0x0F, 0, 0, 0, 1, 0, 1,
    b'r', 1, b'f', b'q', 0, 0, 0, 0, 0, 0, 0, 1, 4, b'v', 0,
];

/// A store `HWS1` with that put as number 1.
const FORMER_STORE: &[u8] = &[
    0xA5, b'H', b'W', b'S', b'1', 0, 0, 0, 1, 0, 0, 0, 0, 0, 0, 0, 1, 0, 0, 0, 0, 0, 0, 0, 1, 0, 0,
    0, 0, 0, 0, 0, 1, 0, 0, 0, 0, 0, 0, 0, 1, 0, 0, 0, 0x0F, 0, 0, 0, 1, 0, 1, b'r', 1, b'f', b'q',
    0, 0, 0, 0, 0, 0, 0, 1, 4, b'v',
];

/// A log or edits file of version 2 with number 3, with that put as edit 4, of table `t` and with tags `ab`.
const TAGGED: &[u8] = &[
    b'H', b'W', b'L', b'1', 0, 0, 0, 2, 0, 0, 0, 0, 0, 0, 0, 3, 0xA5, 3, 0, 0, 0, 0x36, 0, 0, 0, 1,
    0, 0, 0, 0, 0, 0, 0, 4, 0, 0, 0, 0, 0, 0, 3, 0xE8, 1, b't', 0, 0, 0, 1, 0, 0, 0, 0x0F, 0, 0, 0,
    1, 0, 1, b'r', 1, b'f', b'q', 0, 0, 0, 0, 0, 0, 0, 1, 4, b'v', 0, 2, b'a', b'b', 0,
];

/// A store with the edits 2 and 3, the later one first.
const STORE_OF_2_AND_3: &[u8] = &[
    0xA5, b'H', b'W', b'S', b'2', 0, 0, 0, 1, 0, 0, 0, 0, 0, 0, 0, 0, 0, 2, 0, 0, 0, 0, 0, 0, 0, 3,
    0, 0, 0, 0, 0, 0, 0, 2, 0, 0, 0, 0, 0, 0, 0, 3, 0, 0, 0, 0x0F, 0, 0, 0, 1, 0, 1, b'r', 1, b'f',
    b'q', 0, 0, 0, 0, 0, 0, 0, 1, 4, b'v', 0, 0, 0, 0, 0, 0, 0, 0, 0, 2, 0, 0, 0, 0x0F, 0, 0, 0, 1,
    0, 1, b'r', 1, b'f', b'q', 0, 0, 0, 0, 0, 0, 0, 1, 4, b'v', 0, 0,
];

/// A store with the edits 3 and 4, of which 4 has its tags.
const STORE_OF_3_AND_4: &[u8] = &[
    0xA5, b'H', b'W', b'S', b'2', 0, 0, 0, 1, 0, 0, 0, 0, 0, 0, 0, 0, 0, 3, 0, 0, 0, 0, 0, 0, 0, 4,
    0, 0, 0, 0, 0, 0, 0, 2, 0, 0, 0, 0, 0, 0, 0, 4, 0, 0, 0, 0x0F, 0, 0, 0, 1, 0, 1, b'r', 1, b'f',
    b'q', 0, 0, 0, 0, 0, 0, 0, 1, 4, b'v', 0, 2, b'a', b'b', 0, 0, 0, 0, 0, 0, 0, 3, 0, 0, 0, 0x0F,
    0, 0, 0, 1, 0, 1, b'r', 1, b'f', b'q', 0, 0, 0, 0, 0, 0, 0, 1, 4, b'v', 0, 0,
];

/// A store with edit 4 alone.
const STORE_OF_4: &[u8] = &[
    0xA5, b'H', b'W', b'S', b'2', 0, 0, 0, 1, 0, 0, 0, 0, 0, 0, 0, 0, 0, 4, 0, 0, 0, 0, 0, 0, 0, 4,
    0, 0, 0, 0, 0, 0, 0, 1, 0, 0, 0, 0, 0, 0, 0, 4, 0, 0, 0, 0x0F, 0, 0, 0, 1, 0, 1, b'r', 1, b'f',
    b'q', 0, 0, 0, 0, 0, 0, 0, 1, 4, b'v', 0, 2, b'a', b'b',
];

/// A store of the former version, after a crash after an edits file was written: edit 1 is flushed.
pub(crate) const FORMER: &[File] = &[
    (NameKind::Log, 0, 1, FORMER_LOG),
    (NameKind::Store, 1, 1, FORMER_STORE),
    (NameKind::Edits, 1, 2, FORMER_EDITS),
];

/// What an opening leaves of it.
const FORMER_OPENED: &[File] = &[
    (NameKind::Old, 0, 1, FORMER_LOG),
    (NameKind::Store, 1, 1, FORMER_STORE),
    (NameKind::Store, 1, 2, STORE_OF_2_AND_3),
];

/// The same, and a log that was written since.
const GONE_ON: &[File] = &[
    (NameKind::Old, 0, 1, FORMER_LOG),
    (NameKind::Store, 1, 1, FORMER_STORE),
    (NameKind::Store, 1, 2, STORE_OF_2_AND_3),
    (NameKind::Log, 0, 3, TAGGED),
];

/// A region with a store and an edits file of each format.
pub(crate) const MIXED: &[File] = &[
    (NameKind::Store, 1, 1, FORMER_STORE),
    (NameKind::Store, 1, 2, STORE_OF_EDIT_2),
    (NameKind::Edits, 1, 2, FORMER_EDITS),
    (NameKind::Edits, 1, 3, TAGGED),
];

/// A region with three edits in its first two stores.
pub(crate) const THREE_EDITS: Kept = Kept {
    edits: 3,
    next_store: 3,
};

/// A region with four edits in its first three stores.
pub(crate) const FOUR_EDITS: Kept = Kept {
    edits: 4,
    next_store: 4,
};

/// What an opening makes of them.
pub(crate) const OF_BOTH_VERSIONS: [(&[File], Want); 3] = [
    (
        FORMER,
        Want {
            regions: &[THREE_EDITS],
            files: FORMER_OPENED,
        },
    ),
    (
        GONE_ON,
        Want {
            regions: &[FOUR_EDITS],
            files: &[
                (NameKind::Old, 0, 1, FORMER_LOG),
                (NameKind::Old, 0, 3, TAGGED),
                (NameKind::Store, 1, 1, FORMER_STORE),
                (NameKind::Store, 1, 2, STORE_OF_2_AND_3),
                (NameKind::Store, 1, 3, STORE_OF_4),
            ],
        },
    ),
    (
        MIXED,
        Want {
            regions: &[FOUR_EDITS],
            files: &[
                (NameKind::Store, 1, 1, FORMER_STORE),
                (NameKind::Store, 1, 2, STORE_OF_EDIT_2),
                (NameKind::Store, 1, 3, STORE_OF_3_AND_4),
            ],
        },
    ),
];

//! Worked stores.

use crate::files::File;
use crate::opened::{Kept, ONE_EDIT, Want};
use crate::texts::{
    LOG_1, LOG_2, STORE_OF_1, STORE_OF_2, STORE_OF_EDIT_2, TWO_EDITS_LOG_1, TWO_REGIONS_LOG_1,
};
use disk_images::NameKind;

/// A log of edit 1 in regions 1 and 2, after a crash after the commit of the first region's edits file and before the
/// second one's was made.
pub(crate) const BETWEEN_TWO_EDITS_FILES: &[File] = &[
    (NameKind::Log, 0, 1, TWO_REGIONS_LOG_1),
    (NameKind::Edits, 1, 2, LOG_2),
];

/// A log of edits 1 and 2 of region 1, of which the first is flushed.
pub(crate) const STORED_AND_LOGGED: &[File] = &[
    (NameKind::Log, 0, 1, TWO_EDITS_LOG_1),
    (NameKind::Store, 1, 1, STORE_OF_1),
];

/// An edits file of edit 1 of region 1, which is flushed, after a crash before the file was removed.
pub(crate) const ALL_FLUSHED: &[File] = &[
    (NameKind::Store, 1, 1, STORE_OF_1),
    (NameKind::Edits, 1, 1, LOG_1),
];

/// A region with two edits, in its first and second stores.
pub(crate) const TWO_EDITS: Kept = Kept {
    edits: 2,
    next_store: 3,
};

/// Stores of which each was left by some crash, and what an opening makes of them.
pub(crate) const WORKED: [(&[File], Want); 5] = [
    (
        BETWEEN_TWO_EDITS_FILES,
        Want {
            regions: &[ONE_EDIT, ONE_EDIT],
            files: &[
                (NameKind::Old, 0, 1, TWO_REGIONS_LOG_1),
                (NameKind::Store, 1, 1, STORE_OF_1),
                (NameKind::Store, 2, 1, STORE_OF_2),
            ],
        },
    ),
    (
        STORED_AND_LOGGED,
        Want {
            regions: &[TWO_EDITS],
            files: &[
                (NameKind::Old, 0, 1, TWO_EDITS_LOG_1),
                (NameKind::Store, 1, 1, STORE_OF_1),
                (NameKind::Store, 1, 2, STORE_OF_EDIT_2),
            ],
        },
    ),
    (
        ALL_FLUSHED,
        Want {
            regions: &[ONE_EDIT],
            files: &[(NameKind::Store, 1, 1, STORE_OF_1)],
        },
    ),
    (
        // Two logs with an equal entry.
        &[(NameKind::Log, 0, 1, LOG_1), (NameKind::Log, 0, 2, LOG_2)],
        Want {
            regions: &[ONE_EDIT],
            files: &[
                (NameKind::Old, 0, 1, LOG_1),
                (NameKind::Old, 0, 2, LOG_2),
                (NameKind::Store, 1, 1, STORE_OF_1),
            ],
        },
    ),
    (
        &[],
        Want {
            regions: &[],
            files: &[],
        },
    ),
];

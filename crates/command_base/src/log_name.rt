//! The name of the log.

use disk_images::{Name, NameKind};

/// The one log that the commands write and read.
pub const LOG_1: Name = Name {
    kind: NameKind::Log,
    region: 0,
    number: 1,
};

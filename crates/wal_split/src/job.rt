//! An edits file that is to be written.

use disk_images::Name;
use entry_frame::Entry;

/// The name of an edits file, and the entries that go into it.
#[derive(Drop)]
pub struct EditsJob {
    pub name: Name,
    pub entries: Vec<Entry>,
}

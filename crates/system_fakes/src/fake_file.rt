//! An open file of a system in memory.

/// An open file: it leads to its inode, whatever names that has.
#[derive(Drop)]
pub struct FakeFile {
    pub inode: u64,
}

// The calls that a system has done.
ghost use Rattle.std.specs.Prelude.{◌≡◌, ◌<◌, ◌++◌, [], ◌∷◌, vec_len, vec_capacity};

use disk_images::Name;

/// A call, with the inode that it is of.
#[derive(Drop)]
pub enum Op {
    /// A file with this name is made.
    Create(Name),
    /// A copy of the file with this name is begun.
    Begin(Name),
    /// Bytes are written at an offset.
    Write(u64, u64, Vec<u8>),
    /// The same, and the write has failed.
    Tear(u64, u64, Vec<u8>),
    /// An fsync has failed.
    Doubt(u64),
    Sync(u64),
    /// The name changes from the first one to the second.
    Move(u64, Name, Name),
    Unlink(u64, Name),
    /// A copy gets its file's name.
    Place(u64, Name),
    SyncFolder,
    Tick,
}

/// Adds a call to the list, which has room for it.
pub fn note(ops: &mut Vec<Op>, op: Op)
    requires { vec_len ops.old < vec_capacity ops.old }
    ensures { ops.new.items ≡ ops.old.items ++ op ∷ [] }
{
    match ops.push(op) {
        Ok(()) => {}
        Err(_) => unreachable!(),
    }
}

//! How a region's store files are compacted, and what came of it.

ghost use Rattle.std.specs.Prelude.{◌≡◌, ◌<◌, ◌≤◌, false, IsTrue};
ghost use Rattle.store_compact.specs.Compacting.{least_files};

/// Minor keeps all cells. Major keeps the puts that no delete masks and no later put hides, and drops the deletes.
#[derive(Clone, Copy, Debug, PartialEq, Eq)]
pub enum CompactKind {
    Minor,
    Major,
}

impl CompactKind {
    /// Whether so few counting store files are nothing to do for.
    pub(crate) fn is_too_few(self, files: u64) -> bool
        ensures few { IsTrue result → files < least_files self }
        ensures enough { result ≡ false → least_files self ≤ files }
    {
        match self {
            CompactKind::Minor => files < 2,
            CompactKind::Major => files < 1,
        }
    }
}

/// How many cells were stored of the region before, and after.
#[derive(Clone, Copy, Debug, PartialEq, Eq)]
pub struct Compacted {
    pub before: u64,
    pub after: u64,
}

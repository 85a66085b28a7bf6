//! How cells are written.

/// Which of a cell's two spellings bytes are written in.
#[derive(Clone, Copy, Debug, PartialEq, Eq)]
pub enum Form {
    /// Without tags: HBase's KeyValue.
    Plain,
    /// With tags after the value.
    Tagged,
}

//! Reading a file whose bytes are all there.

ghost use Rattle.std.specs.Prelude.{◌<◌, ◌^◌, length, IfOk, IfErr};
ghost use Rattle.log_model.specs.LogText.{IsLogText};
ghost use Rattle.entry_frame.specs.Feed.{key_of, IsMemoryOrDamage};

use crate::entry::Entry;
use crate::feed::Feed;
use crate::phase::{FeedRefusal, FileKey};
use std::alloc::Global;

/// The entries of these bytes and the count of their end frame. So each list of bytes is a log text or damaged.
pub fn read_whole(
    alloc: Global,
    file: FileKey,
    bytes: &[u8],
) -> Result<(Vec<Entry>, Option<u64>), FeedRefusal>
    requires { length bytes.now < 2 ^ 63 }
    ensures text { IfOk result (λ text. IsLogText (key_of file) bytes.now text.0.items text.1) }
    ensures damaged { IfErr result (λ refusal. IsMemoryOrDamage (key_of file) bytes.now refusal) }
{
    let mut feed = Feed::new(alloc, file);
    feed.give(bytes)?;
    let mut entries = Vec::new(alloc);
    while let Some(entry) = feed.take(alloc)? {
        entries.push(entry)?;
    }
    let ended = feed.finish()?;
    Ok((entries, ended))
}

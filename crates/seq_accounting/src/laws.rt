//! Laws on how many flushes come off. Each of these functions does nothing: its contract is the law.

ghost use Rattle.seq_accounting.specs.Live.{NoteIsCounted, FlushIsCounted, FlushesAreFew};

/// Flushes that came off and families of noted entries that aren't flushed are, together, no more than the families of the
/// noted entries: it holds when an entry more is noted.
pub fn note_is_counted()
    ensures { NoteIsCounted }
{}

/// The same holds when a flush comes off by which a family of a noted entry is flushed that wasn't before.
pub fn flush_is_counted()
    ensures { FlushIsCounted }
{}

/// So a region whose numbers rise below 2^48, in entries of at most 1,024 families, has fewer than 2^58 flushes that came off.
pub fn flushes_are_few()
    ensures { FlushesAreFew }
{}

//! Shipping entries one after the other, with a record after each 64.

ghost use Rattle.std.specs.Prelude.{◌≡◌, ◌<◌, ◌+◌, ◌-◌, ◌^◌, [], ◌∷◌, ℕ, true, false, min, length, IsErr, OnOk};
ghost use Rattle.disk_images.specs.Calls.{HasCause};
ghost use Rattle.log_tail.specs.Reads.{placed_behind};
ghost use Rattle.ship_queue.specs.Messages.{placed};
ghost use Rattle.ship_queue.specs.Course.{counted};
ghost use Rattle.ship_queue.specs.Sent.{HasSent, HasStopped, HasTorn};

use crate::peer::Peer;
use disk_images::Failed;
use entry_frame::Entry;
use log_tail::Position;

/// After so many entries a position is recorded.
const RECORDED_EACH: u64 = 64;

/// How many entries a call has shipped.
#[derive(Drop)]
pub(crate) struct Count {
    /// All of them, or 2^64 - 1 where there were more.
    pub(crate) entries: u64,
    /// Those after the last record, or all where there is none yet.
    pub(crate) unrecorded: u64,
    ghost within: { unrecorded < 64 },
}

impl Count {
    /// Counts one entry more, and tells whether a position is to be recorded after it.
    fn add(&mut self) -> bool
        ensures entries { self.new.entries ≡ min (self.old.entries + 1) (2 ^ 64 - 1) }
        ensures more { result ≡ false → self.new.unrecorded ≡ self.old.unrecorded + 1 }
        ensures each { result ≡ true → (self.old.unrecorded + 1 ≡ 64) × (self.new.unrecorded ≡ 0) }
    {
        let unrecorded = self.unrecorded + 1;
        let is_due = unrecorded == RECORDED_EACH;
        *self = Count {
            entries: self.entries.saturating_add(1),
            unrecorded: if is_due { 0 } else { unrecorded },
        };
        is_due
    }
}

/// Ships an entry, counts it, and records the position after it where it is the 64th since the last record.
pub(crate) fn ship_next<P: Peer>(
    peer: &mut P,
    count: &mut Count,
    at: Position,
    entry: &Entry,
) -> Result<(), Failed>
    ensures sent { OnOk result (HasSent P.has peer.old peer.new count.old.unrecorded count.new.unrecorded (placed at entry.now ∷ [])) }
    ensures stopped { IsErr result → HasStopped P.has peer.old peer.new (placed at entry.now ∷ []) }
    ensures torn { IsErr result → HasTorn P.has P.torn peer.old peer.new count.old.unrecorded (placed at entry.now ∷ []) }
    ensures count { OnOk result (count.new.entries ≡ min (count.old.entries + 1) (2 ^ 64 - 1)) }
    ensures stays { P.stays peer.old peer.new }
    ensures cause { HasCause (P.faults peer.old) (P.faults peer.new) (IsErr result) }
{
    peer.ship(at, entry)?;
    let is_due = count.add();
    if !is_due {
        return Ok(());
    }
    peer.confirm(at)
}

/// Ships the entries that stand after a position of a log.
pub(crate) fn ship_list<P: Peer>(
    peer: &mut P,
    count: &mut Count,
    at: Position,
    entries: &[Entry],
) -> Result<(), Failed>
    requires places { at.entries + length entries.now < 2 ^ 64 }
    ensures sent { OnOk result
        (HasSent P.has peer.old peer.new count.old.unrecorded count.new.unrecorded (placed_behind at.file at.entries entries.now)) }
    ensures stopped { IsErr result → HasStopped P.has peer.old peer.new (placed_behind at.file at.entries entries.now) }
    ensures torn { IsErr result
        → HasTorn P.has P.torn peer.old peer.new count.old.unrecorded (placed_behind at.file at.entries entries.now) }
    ensures count { (n : ℕ) → count.old.entries ≡ counted n → OnOk result (count.new.entries ≡ counted (n + length entries.now)) }
    ensures stays { P.stays peer.old peer.new }
    ensures cause { HasCause (P.faults peer.old) (P.faults peer.new) (IsErr result) }
{
    let mut place = at.entries;
    for entry in entries {
        place += 1;
        let here = Position {
            file: at.file,
            entries: place,
        };
        ship_next(peer, count, here, entry)?;
    }
    Ok(())
}

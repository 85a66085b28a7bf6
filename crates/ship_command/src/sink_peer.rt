//! A peer that is a sink.

ghost use Rattle.std.specs.Prelude.{◌≡◌, false, [], IsTrue};
ghost use Rattle.ship_command.specs.Sinks.{HasWritten, IsTorn};

use crate::entries::{write_entry, write_record};
use disk_images::{Failed, Sink};
use entry_frame::Entry;
use log_tail::Position;
use ship_queue::Peer;
use std::snapshot::Snapshot;

/// Writes to a sink the lines of what it is shipped, and of what it is to record. It takes no memory, and fails only where the
/// sink does. Once a call has failed it tells nothing more, since a line may be torn.
pub struct SinkPeer<'a, K: Sink> {
    pub out: &'a mut K,
    failed: bool,
    first: Snapshot<K>,
}

impl<'a, K: Sink> Drop for SinkPeer<'a, K> {
    /// Lets the sink go as it stands.
    fn drop(self)
        ensures { self.exit.0.now ≡ self.entry.out.now }
    {
        let SinkPeer {
            out: _,
            failed: _,
            first: _,
        } = self;
    }
}

impl<'a, K: Sink> SinkPeer<'a, K> {
    /// Over this sink.
    pub fn over(out: &'a mut K) -> SinkPeer<'a, K>
        ensures same_reference { result.out.ghost_name ≡ out.entry.ghost_name }
        ensures out { result.out.now ≡ out.old }
        ensures whole { result.failed ≡ false }
        ensures first { result.first.value ≡ out.old }
    {
        let first = Snapshot::of(out);
        SinkPeer {
            out,
            failed: false,
            first,
        }
    }
}

impl<'a, K: Sink> Peer for SinkPeer<'a, K> {
    ghost use Rattle.std.proofs.Common.{◌≡◌, ◌∙◌, refl};
    ghost use Rattle.ship_command.specs.Sinks.{HasWritten, IsTorn};

    ghost has = { λ p ms. HasWritten K.told p.failed (K.taken p.first.value) (K.taken p.out.now) ms };

    ghost torn = { λ p ms m. IsTorn K.told (K.taken p.first.value) (K.taken p.out.now) ms m };

    ghost faults = { λ p. K.faults p.out.now };

    ghost stays = { λ p q. (q.out.ghost_name ≡ p.out.ghost_name) × (q.first.value ≡ p.first.value) };

    fn ship(&mut self, at: Position, entry: &Entry) -> Result<(), Failed> {
        match write_entry(self.out, at, entry) {
            Ok(()) => Ok(()),
            Err(e) => {
                self.failed = true;
                Err(e)
            }
        }
    }

    fn confirm(&mut self, at: Position) -> Result<(), Failed> {
        match write_record(self.out, at) {
            Ok(()) => Ok(()),
            Err(e) => {
                self.failed = true;
                Err(e)
            }
        }
    }

    ghost stays_itself = { λ p. (refl, refl) };

    ghost stays_on = { λ p q r first second. (second.0 ∙ first.0, second.1 ∙ first.1) };
}

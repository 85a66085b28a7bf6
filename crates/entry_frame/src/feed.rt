//! Reading a log or edits file that comes in pieces.

ghost use Rattle.std.specs.Prelude.{◌≡◌, ◌≢◌, ◌↔◌, ℕ, ◌+◌, ◌<◌, ◌≤◌, ◌^◌, List, [], ◌++◌, length, drop, IsTrue, OnOk, OnErr, OnSome, IfOk, IfSome, IfNone, IfErr};
ghost use Rattle.log_model.specs.Entry.{Entry as TheEntry};
ghost use Rattle.log_model.specs.LogText.{IsLogText};
ghost use Rattle.entry_frame.specs.declared.phase.Phase.TheVariants as phases;
ghost use Rattle.entry_frame.specs.declared.phase.FeedRefusal.TheVariants as refusals;
ghost use Rattle.entry_frame.specs.Feed.{key_of, HasNext, HasEnded, IsFed, IsDrained, entry_given, IsOfPhase, IsDamage};

use crate::entry::Entry;
use crate::owning::own_entry;
use crate::phase::{FeedRefusal, FileKey, Phase};
use crate::step::{Step, next_step};
use std::alloc::Global;
use std::marker::Model;

/// A file that is read as its bytes come, however they are cut into pieces. Contracts tie it to the bytes given and
/// the entries taken by `IsFed`. It keeps the bytes not read yet, and moves no more bytes than it has read.
#[derive(Debug, Drop)]
pub struct Feed {
    file: FileKey,
    /// The version of the text, 1 or 2, once an entry was taken, and any of the two before that.
    version: u32,
    phase: Phase,
    count: u64,
    /// The offset in the file of the first byte not read.
    at: u64,
    bytes: Vec<u8>,
    /// How many of `bytes` are read.
    read: usize,
}

impl Model for Feed {
    ghost use Rattle.std.specs.Prelude.{length, drop};
    ghost use Rattle.entry_frame.specs.Feed.{Feeding, IsWithin, key_of};
    ghost use Rattle.log_model.specs.LogText.{IsVersion};

    ghost Value = { Feeding };

    ghost view = { λ f. record { key = key_of f.file; version = f.version; phase = f.phase; count = f.count; at = f.at; unread = drop f.read f.bytes.items } };

    ghost invariant = { λ f. IsWithin f.count f.at f.read (length f.bytes.items) × IsVersion f.version };
}

impl Feed {
    /// A feed of the file of this name that was given nothing.
    pub fn new(alloc: Global, file: FileKey) -> Feed
        ensures key { result.key ≡ key_of file }
        ensures fed { IsFed result [] [] }
    {
        Feed {
            file,
            version: 2,
            phase: Phase::Open,
            count: 0,
            at: 0,
            bytes: Vec::new(alloc),
            read: 0,
        }
    }

    /// Takes the next piece of the file, of which there are less than 2^63 bytes in all.
    pub fn give(&mut self, piece: &[u8]) -> Result<(), FeedRefusal>
        requires { self.old.at + length self.old.unread + length piece.now < 2 ^ 63 }
        ensures key { self.new.key ≡ self.old.key }
        ensures given { (given : List ℕ) (taken : List TheEntry) → IsFed self.old given taken → OnOk result (IsFed self.new (given ++ piece.now) taken) }
        ensures refused { OnErr result (self.new ≡ self.old) }
        ensures reach { self.new.at + length self.new.unread ≤ self.old.at + length self.old.unread + length piece.now }
        ensures damaged { IfErr result (λ refusal. IsOfPhase refusal self.old.phase) }
        // A damaged feed answers the same again.
        ensures again { (at : ℕ) → self.old.phase ≡ phases.Damaged at → result ≡ Err (refusals.Damaged at) }
    {
        match self.phase {
            Phase::Damaged(at) => return Err(FeedRefusal::Damaged { at }),
            Phase::Ended(_) => return Ok(()),
            Phase::Open => {}
        }
        self.read = compact(&mut self.bytes, self.read);
        if self.bytes.extend_from_slice(piece).is_err() {
            return Err(FeedRefusal::Memory);
        }
        Ok(())
    }

    /// The next entry. `None` comes exactly where the bytes given hold no further whole entry with its next gate.
    pub fn take(&mut self, alloc: Global) -> Result<Option<Entry>, FeedRefusal>
        ensures key { self.new.key ≡ self.old.key }
        ensures taken { (given : List ℕ) (taken : List TheEntry) → IsFed self.old given taken → IsFed self.new given (taken ++ entry_given result) }
        ensures whole { (given : List ℕ) (taken : List TheEntry) → IsFed self.old given taken
            → IfOk result (λ entry. IfSome entry (λ e. HasNext self.old.key given taken e)) }
        ensures drained { IfOk result (λ entry. IfNone entry (IsDrained self.new)) }
        ensures memory { result ≡ Err refusals.Memory → self.new ≡ self.old }
        ensures damaged { IfErr result (λ refusal. IsOfPhase refusal self.new.phase) }
        ensures less { IfOk result (λ entry. OnSome entry (length self.new.unread < length self.old.unread)) }
        ensures reach { self.new.at + length self.new.unread ≡ self.old.at + length self.old.unread }
        // A damaged feed answers the same again.
        ensures again { (at : ℕ) → self.old.phase ≡ phases.Damaged at → result ≡ Err (refusals.Damaged at) }
    {
        match self.phase {
            Phase::Damaged(at) => return Err(FeedRefusal::Damaged { at }),
            Phase::Ended(_) => return Ok(None),
            Phase::Open => {}
        }
        let (version, entry, used) = match next_step(
            self.file,
            self.version,
            self.count,
            self.at,
            &self.bytes[self.read..],
        ) {
            Step::Entry {
                version,
                entry,
                used,
            } => (version, own_entry(alloc, &entry)?, used),
            Step::Wait(_) => return Ok(None),
            Step::Ended(told) => {
                self.phase = Phase::Ended(told);
                return Ok(None);
            }
            Step::Damaged(at) => {
                self.phase = Phase::Damaged(at);
                return Err(FeedRefusal::Damaged { at });
            }
        };
        self.version = version;
        self.count += 1;
        self.at += used as u64;
        self.read += used;
        Ok(Some(entry))
    }

    /// Whether the text has ended, so that what may follow is no part of it.
    pub fn has_ended(&self) -> bool
        ensures ended { IsTrue result ↔ HasEnded self.now.phase }
        ensures more { IsTrue result → (given more : List ℕ) (taken : List TheEntry) → IsFed self.now given taken → IsFed self.now (given ++ more) taken }
    {
        matches!(self.phase, Phase::Ended(_))
    }

    /// The count of the end frame, if one was read. It takes no memory.
    pub fn finish(self) -> Result<Option<u64>, FeedRefusal>
        requires { IsDrained self }
        ensures text { (given : List ℕ) (taken : List TheEntry) → IsFed self given taken → IfOk result (λ ended. IsLogText self.key given taken ended) }
        ensures damaged { (given : List ℕ) (taken : List TheEntry) → IsFed self given taken → IfErr result (λ refusal. IsDamage self.key given refusal) }
        ensures memory { result ≢ Err refusals.Memory }
    {
        match self.phase {
            Phase::Damaged(at) => return Err(FeedRefusal::Damaged { at }),
            Phase::Ended(told) => return Ok(told),
            Phase::Open => {}
        }
        match next_step(
            self.file,
            self.version,
            self.count,
            self.at,
            &self.bytes[self.read..],
        ) {
            Step::Entry { .. } => Ok(None),
            Step::Ended(told) => Ok(told),
            Step::Damaged(at) => Err(FeedRefusal::Damaged { at }),
            Step::Wait(None) => Ok(None),
            Step::Wait(Some(at)) => Err(FeedRefusal::Damaged { at }),
        }
    }
}

/// Drops the bytes that are read once they are no fewer than the others, so that no more are moved than were read.
fn compact(bytes: &mut Vec<u8>, read: usize) -> usize
    requires { read ≤ length bytes.old.items }
    ensures same { drop result bytes.new.items ≡ drop read bytes.old.items }
    ensures within { result ≤ length bytes.new.items }
{
    let left = bytes.len() - read;
    if read < left {
        return read;
    }
    bytes.copy_within(read.., 0);
    bytes.truncate(left);
    0
}

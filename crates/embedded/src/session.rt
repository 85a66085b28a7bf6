//! What a handler calls.

ghost use Rattle.std.specs.Prelude.{◌≡◌, ◌≤◌, ◌<◌, ◌+◌, ◌-◌, ◌^◌, ◌++◌, ◌∷◌, [], length, IfSome};
ghost use Rattle.std.specs.Option.{option_map};
ghost use Rattle.region_model.specs.Calls.{Raw, Newest};
ghost use Rattle.server_model.specs.Pass.{IsLater};
ghost use Rattle.server_model.specs.Steps.{Puts, Scans, Flushes, Rolls, IsQuietPass};
ghost use Rattle.handler_threads.specs.region_calls.Answers.{is_sync, put_answer, scan_answer, begun_answer, point_seen, flush_answer, roll_answer};
ghost use Rattle.embedded.specs.Settings.{next_call};

use handler_threads::region_calls::{
    FlushRefusal, PutRefusal, RollRefusal, Rolled, ScanReply, Scanner,
};
use kv_cell::{Batch, Durability, NoMemory};
use std::alloc::Global;

/// A handler's session with its server: its pass, the time of its puts and the number of its next call. Puts and flushes are numbered, from
/// 1 on, and there are 4,294,967,295 of them: who may make so many looks at `calls` before each.
pub trait Session {
    ghost use Rattle.server_model.specs.Pass.{Naming, Pass};
    ghost use Rattle.embedded.specs.Settings.{Setting};

    /// How many regions and handlers the server has, and what each region held when it was opened.
    ghost name: { Naming };

    /// What no call changes: which server it is, the time of the puts, and what the pass knew at first.
    ghost setting: { Self → Setting };

    /// What the handler's pass knows.
    ghost knows: { Self → Pass };

    /// The session goes on: its pass is one of its server's.
    ghost is_open: { Self → Type 0 };

    /// How many regions there are: they are numbered from 1 on.
    fn regions(&self) -> u32
        requires of { is_open self.now }
        ensures { result ≡ name.regions };

    /// The handler's number, from 1 on.
    fn handler(&self) -> u32
        ensures { result ≡ (knows self.now).handler };

    /// How many puts and flushes the handler has made.
    fn calls(&self) -> u32
        requires of { is_open self.now }
        ensures { result ≡ (knows self.now).calls };

    /// Puts the cells of one edit into a region: draws its sequence id, logs it, waits for the log where durability was asked for, and shows it.
    /// It answers the sequence id. A put that answered Memory with one, or WriteFault with one, is in the region's journal.
    fn put(&mut self, region: u32, durability: Durability, batch: Batch) -> Result<u64, PutRefusal>
        requires of { is_open self.old }
        requires region { (1 ≤ region) × (region ≤ name.regions) }
        requires left { (knows self.old).calls + 1 < 2 ^ 32 }
        ensures puts { Puts name (setting self.old).time region (is_sync durability) batch (next_call (knows self.old)) (put_answer result)
            (knows self.old) (knows self.new) }
        ensures of { is_open self.new }
        ensures same { setting self.new ≡ setting self.old };

    /// The cells of a region whose rows lie at or above `from` and, if `to` isn't empty, below `to`, at a point that was shown: all versions of
    /// each column, the newest first, and deletes as they are. It waits for nobody. The point is at or above each one that the handler has seen.
    fn scan(&mut self, region: u32, from: &[u8], to: &[u8]) -> Result<ScanReply, NoMemory>
        requires of { is_open self.old }
        requires region { (1 ≤ region) × (region ≤ name.regions) }
        ensures scans { Scans name Raw region from.now to.now (scan_answer result) (knows self.old) (knows self.new) }
        ensures of { is_open self.new }
        ensures same { setting self.new ≡ setting self.old };

    /// The same, to be read a page at a time. The point stays: what is put later is not in the pages.
    fn begin_scan(&mut self, region: u32, from: &[u8], to: &[u8]) -> Result<Scanner, NoMemory>
        requires of { is_open self.old }
        requires region { (1 ≤ region) × (region ≤ name.regions) }
        ensures scans { Scans name Raw region from.now to.now (begun_answer (point_seen name region (knows self.new)) result)
            (knows self.old) (knows self.new) }
        ensures of { is_open self.new }
        ensures same { setting self.new ≡ setting self.old };

    /// A row of a region: of each column the newest so many puts that no delete masks. It waits for nobody.
    fn get(&mut self, region: u32, row: &[u8], versions: u32) -> Result<ScanReply, NoMemory>
        requires of { is_open self.old }
        requires region { (1 ≤ region) × (region ≤ name.regions) }
        ensures gets { Scans name (Newest versions) region row.now (row.now ++ 0 ∷ []) (scan_answer result) (knows self.old) (knows self.new) }
        ensures of { is_open self.new }
        ensures same { setting self.new ≡ setting self.old };

    /// The point of a region that is shown, at or above each one that the handler has seen. It waits for nobody.
    fn read_point(&mut self, region: u32) -> u64
        requires of { is_open self.old }
        requires region { (1 ≤ region) × (region ≤ name.regions) }
        ensures point { result ≡ point_seen name region (knows self.new) }
        ensures later { IsLater (knows self.old) (knows self.new) }
        ensures own { IsQuietPass (knows self.old) (knows self.new) }
        ensures used { (knows self.new).calls ≡ (knows self.old).calls }
        ensures of { is_open self.new }
        ensures same { setting self.new ≡ setting self.old };

    /// Writes what is logged of a family of a region (1 to 127 bytes), or of all where none is given, to a store file, and answers up to which
    /// sequence id. Where a flush of the region by another handler was under way, it answers that one's call.
    fn flush(&mut self, region: u32, family: Option<&[u8]>) -> Result<u64, FlushRefusal>
        requires family { IfSome family (λ f. (1 ≤ length f.now) × (length f.now ≤ 127)) }
        requires of { is_open self.old }
        requires region { (1 ≤ region) × (region ≤ name.regions) }
        requires left { (knows self.old).calls + 1 < 2 ^ 32 }
        ensures flushes { Flushes name region (option_map (λ f. f.now) family.entry) (next_call (knows self.old)) (flush_answer result)
            (knows self.old) (knows self.new) }
        ensures of { is_open self.new }
        ensures same { setting self.new ≡ setting self.old };

    /// Closes the log's file, and begins the next one.
    fn roll(&mut self) -> Result<Rolled, RollRefusal>
        requires of { is_open self.old }
        ensures rolls { Rolls (roll_answer result) (knows self.old) (knows self.new) }
        ensures of { is_open self.new }
        ensures same { setting self.new ≡ setting self.old };
}

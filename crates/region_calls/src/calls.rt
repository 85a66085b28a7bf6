//! A server's calls, each on one region.

ghost use Rattle.std.specs.Prelude.{◌≡◌, ◌≢◌, ℕ, ◌-◌, ◌≤◌, ◌<◌, ◌^◌, ◌⊎◌, length, IfSome, Contains, true, false};
ghost use Rattle.std.specs.Option.{option_map};
ghost use Rattle.pass_calls.specs.log_service.Places.{IsSeatOf, IsLaterSeat, written_of, FoundTaken, HadTurn, LastFoundTaken, LastHadTurn};
ghost use Rattle.server_model.specs.Pass.{IsLater};
ghost use Rattle.region_model.specs.Calls.{Raw};
ghost use Rattle.server_model.specs.Steps.{IsQuietPass, Puts, Scans, Flushes, Rolls};
ghost use Rattle.pass_calls.specs.region_lock.Puts.{AsksLog, IsFaultExact, WatchesFault};
ghost use Rattle.pass_calls.specs.region_lock.Logged.{FlushesLog};
ghost use Rattle.pass_calls.specs.log_service.Turns.{HasRolledFile};
ghost use Rattle.pass_calls.specs.log_service.Counts.{flushed_by, rolled_by};
ghost use Rattle.region_calls.specs.Answers.{is_sync, put_answer, scan_answer, begun_answer, point_seen, flush_answer, roll_answer};
ghost use Rattle.region_calls.specs.Passes.{knows, tally_of, IsPassOf};

use crate::naming::ServerNaming;
use crate::pass::Pass;
use crate::putting::put_at;
use crate::reading::scanner_in;
use crate::server::Server;
use disk_images::Disk;
use kv_cell::{Batch, Durability, NoMemory};
use pass_calls::log_service::log_device::{RollRefusal, Rolled};
use pass_calls::log_service::{Helped, LogSeat};
use pass_calls::region_lock::{FlushRefusal, Gate, PutRefusal, ScanReply, point_in, scan_in};
use pass_calls::{flush_in, roll_in};
use region_state::{Caller, Scanner};
use std::alloc::Global;
use std::sync::Wait;

impl<
    'a,
    D: Disk,
    N: ServerNaming
        + pass_calls::region_lock::LockNaming
        + pass_calls::log_service::ServiceNaming
        + region_versions::VersionsNaming,
    R: Wait,
> Server<'a, D, N, R> {
    /// Where a region of the server's stands in its lists.
    fn place_of(&self, region: u32) -> usize
        requires region { (1 ≤ region) × (region ≤ N.name.regions) }
        ensures place { result ≡ region - 1 }
        ensures few { region ≤ self.now.regions }
        ensures bases { N.name.bases ≡ N.region_base }
        ensures flushes { N.name.flushes ≡ N.flushes }
    {
        // For the proof: naming a part brings in the server's invariant, which the clauses come from.
        let _ = &self.service;
        region as usize - 1
    }

    /// Puts the cells of one edit into a region: draws its number, logs it, waits for the log where durability was asked for, and shows it.
    /// It answers the number once the pass has seen a version at or above it. A put that answered Memory with a number, or WriteFault with
    /// one, is in the journal.
    pub fn put<G: Gate, S: Wait>(
        &self,
        rt: &S,
        alloc: Global,
        pass: &mut Pass<N>,
        region: u32,
        call: u32,
        time: u64,
        durability: Durability,
        batch: Batch,
        gate: &G,
    ) -> Result<u64, PutRefusal>
        requires of { IsPassOf self.now pass.old }
        requires region { (1 ≤ region) × (region ≤ N.name.regions) }
        requires call { (knows pass.old).calls < call }
        requires time { time < 2 ^ 63 }
        ensures puts { Puts N.name time region (is_sync durability) batch (record { handler = (knows pass.old).handler; call = call })
            (put_answer result) (knows pass.old) (knows pass.new) }
        ensures exact { IsFaultExact (is_sync durability) region result pass.old.seat.device.knows pass.new.seat.device.knows }
        // Where durability was asked for it has pushed one sync request up to its number, or has seen the fault word set.
        ensures asked { AsksLog (is_sync durability) region result (tally_of region pass.old).asked (tally_of region pass.new).asked
            pass.new.seat.device.knows.broken }
        // It looks at the fault word at its start and once after each try that found the ring full.
        ensures watched { WatchesFault result (tally_of region pass.old).watch (tally_of region pass.new).watch }
        // Nothing of that is counted among its puts into another region.
        ensures others { (r : ℕ) → r ≢ region → tally_of r pass.new ≡ tally_of r pass.old }
        ensures of { IsPassOf self.now pass.new }
    {
        let caller = Caller {
            handler: pass.handler,
            call,
        };
        let place = self.place_of(region);
        let answer = put_at(
            rt,
            alloc,
            &self.service,
            &self.regions[place],
            &mut pass.regions[place],
            &mut pass.seat,
            caller,
            time,
            durability,
            batch,
            gate,
        );
        pass.calls = call;
        answer
    }

    /// The cells of a region whose rows lie at or above `from` and, if `to` isn't empty, below `to`, at a point that was shown. It waits for
    /// nobody. The point is at or above each one that the pass has seen. After it was out of memory the pass may have seen a later point.
    pub fn scan(
        &self,
        alloc: Global,
        pass: &mut Pass<N>,
        region: u32,
        from: &[u8],
        to: &[u8],
    ) -> Result<ScanReply, NoMemory>
        requires of { IsPassOf self.now pass.old }
        requires region { (1 ≤ region) × (region ≤ N.name.regions) }
        ensures scans { Scans N.name Raw region from.now to.now (scan_answer result) (knows pass.old) (knows pass.new) }
        ensures of { IsPassOf self.now pass.new }
    {
        let place = self.place_of(region);
        scan_in(alloc, &mut pass.regions[place], from, to)
    }

    /// The scan of a region's cells whose rows lie at or above `from` and, if `to` isn't empty, below `to`, at a point that was shown, to be
    /// read a page at a time. It waits for nobody, and nobody waits for it. The point is at or above each one that the pass has seen, and it
    /// stays: what is put later is not in its pages. After it was out of memory the pass may have seen a later point.
    pub fn begin_scan(
        &self,
        alloc: Global,
        pass: &mut Pass<N>,
        region: u32,
        from: &[u8],
        to: &[u8],
    ) -> Result<Scanner, NoMemory>
        requires of { IsPassOf self.now pass.old }
        requires region { (1 ≤ region) × (region ≤ N.name.regions) }
        ensures scans { Scans N.name Raw region from.now to.now (begun_answer (point_seen N.name region (knows pass.new)) result)
            (knows pass.old) (knows pass.new) }
        ensures of { IsPassOf self.now pass.new }
    {
        let place = self.place_of(region);
        scanner_in(alloc, &mut pass.regions[place], from, to)
    }

    /// The point of the region's version that is shown, at or above each one that the pass has seen. It waits for nobody.
    pub fn read_point(&self, pass: &mut Pass<N>, region: u32) -> u64
        requires of { IsPassOf self.now pass.old }
        requires region { (1 ≤ region) × (region ≤ N.name.regions) }
        ensures point { result ≡ point_seen N.name region (knows pass.new) }
        ensures later { IsLater (knows pass.old) (knows pass.new) }
        ensures own { IsQuietPass (knows pass.old) (knows pass.new) }
        ensures used { (knows pass.new).calls ≡ (knows pass.old).calls }
        ensures of { IsPassOf self.now pass.new }
    {
        let place = self.place_of(region);
        point_in(&mut pass.regions[place])
    }

    /// Writes what is logged of a family of a region (1 to 127 bytes), or of all where none is given, to a store file, and answers up to which
    /// number: it is at or above each one of the region that the pass has seen. Where a flush of the region by another handler was under way
    /// at the look under the region's lock, it answers that one.
    pub fn flush<S: Wait>(
        &self,
        rt: &S,
        alloc: Global,
        pass: &mut Pass<N>,
        region: u32,
        call: u32,
        family: Option<&[u8]>,
    ) -> Result<u64, FlushRefusal>
        requires family { IfSome family (λ f. (1 ≤ length f.now) × (length f.now ≤ 127)) }
        requires of { IsPassOf self.now pass.old }
        requires region { (1 ≤ region) × (region ≤ N.name.regions) }
        requires call { (knows pass.old).calls < call }
        requires listed { Contains (N.name.flushes region) (record { handler = (knows pass.old).handler; call = call }) }
        ensures flushes { Flushes N.name region (option_map (λ f. f.now) family.entry)
            (record { handler = (knows pass.old).handler; call = call }) (flush_answer result)
            (knows pass.old) (knows pass.new) }
        // Unless the log is broken, what it answers is of what the log kept of the family.
        ensures family { FlushesLog D.Disk N.ServiceNaming self.now.regions region (option_map (λ f. f.now) family.entry)
            pass.new.seat result }
        // After Ok the flushes of this pass have written a store file more, and else none.
        ensures counted { written_of pass.new.seat ≡ flushed_by result (written_of pass.old.seat) }
        ensures of { IsPassOf self.now pass.new }
    {
        let by = Caller {
            handler: pass.handler,
            call,
        };
        let place = self.place_of(region);
        let answer = flush_in(
            rt,
            alloc,
            &self.service,
            &self.regions[place],
            &mut pass.regions[place],
            &mut pass.seat,
            by,
            family,
        );
        pass.calls = call;
        answer
    }

    /// Closes the log's file, and begins the next one.
    pub fn roll<S: Wait>(
        &self,
        rt: &S,
        alloc: Global,
        pass: &mut Pass<N>,
    ) -> Result<Rolled, RollRefusal>
        requires of { IsPassOf self.now pass.old }
        ensures rolls { Rolls (roll_answer result) (knows pass.old) (knows pass.new) }
        // Unless the log is broken, what it answers is of the file that the log had.
        ensures rolled { pass.new.seat.device.knows.broken ≡ false
            → HasRolledFile D.Disk N.ServiceNaming self.now.regions result pass.new.seat.device.knows }
        // After Ok the rolls of this pass have closed a log file more, and else none.
        ensures counted { written_of pass.new.seat ≡ rolled_by result (written_of pass.old.seat) }
        ensures of { IsPassOf self.now pass.new }
    {
        roll_in(rt, alloc, &self.service, &mut pass.seat)
    }

    /// Helps the log: one turn of each kind. Busy only where its last exchange on one of the two turn words found the word taken,
    /// Nothing only where both were found free or the log is broken, and Something only where it had one of the two turns.
    pub fn help<S: Wait>(&self, rt: &S, seat: &mut LogSeat) -> Helped
        requires seat { IsSeatOf self.now seat.old }
        ensures seat { IsSeatOf self.now seat.new }
        ensures later { IsLaterSeat seat.old seat.new }
        ensures busy { result ≡ Helped.Busy → LastFoundTaken seat.old.consumer.knows seat.new.consumer.knows
            ⊎ FoundTaken seat.old.device.knows seat.new.device.knows }
        ensures nothing { result ≡ Helped.Nothing → (seat.new.device.knows.broken ≡ true)
            ⊎ (LastHadTurn seat.old.consumer.knows seat.new.consumer.knows × HadTurn seat.old.device.knows seat.new.device.knows) }
        ensures something { result ≡ Helped.Something → LastHadTurn seat.old.consumer.knows seat.new.consumer.knows
            ⊎ HadTurn seat.old.device.knows seat.new.device.knows }
    {
        self.service.help(rt, seat)
    }
}

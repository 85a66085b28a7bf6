//! The calls, each on its region's group, as its server answers them.

ghost use Rattle.std.specs.Prelude.{◌≡◌, ◌≤◌, ◌<◌, ◌^◌, IfSome, length};
ghost use Rattle.std.specs.Option.{option_map};
ghost use Rattle.groups_model.specs.Groups.{group_of};
ghost use Rattle.group_servers.specs.region_calls.Answers.{is_sync, put_answer, scan_answer, flush_answer, roll_answer};
ghost use Rattle.group_calls.specs.Passes.{known, named, IsGroupPassOf, IsExactOn, IsRegionOn, IsNextOn, IsListedOn, StayElsewhere};
ghost use Rattle.group_calls.specs.Passes.{PutsOn, ScansOn, LooksOn, FlushesOn, RollsOn};
ghost use Rattle.group_servers.specs.Helping.{HasHelped};
ghost use Rattle.group_calls.specs.Helpers.{IsHelperOf};

use crate::groups::{GroupHelper, GroupPass, Groups};
use disk_images::Disk;
use group_servers::handler_threads::ServerName;
use group_servers::region_calls::{
    FlushRefusal, Gate, Helped, PutRefusal, RollRefusal, Rolled, ScanReply,
};
use group_servers::{
    GroupPut, flush_at, help_at, help_with, put_at, put_with, read_point_at, read_point_of,
    roll_at, scan_at,
};
use kv_cell::{Batch, Durability, NoMemory};
use std::alloc::Global;
use std::sync::Wait;

impl<'a, D: Disk, N1: ServerName, N2: ServerName, N3: ServerName, N4: ServerName, R: Wait> Groups<
    'a,
    D,
    N1,
    N2,
    N3,
    N4,
    R,
> {
    /// Puts the cells of one edit into a region, as its group's server does: a fault of another group's disk refuses nothing here.
    pub fn put<G: Gate, S: Wait>(
        &self,
        rt: &S,
        alloc: Global,
        pass: &mut GroupPass<N1, N2, N3, N4>,
        region: u32,
        call: u32,
        time: u64,
        durability: Durability,
        batch: Batch,
        gate: &G,
    ) -> Result<u64, PutRefusal>
        requires of { IsGroupPassOf self.now pass.old }
        requires region { IsRegionOn (named N1.name N2.name N3.name N4.name) region (group_of self.now.count region) }
        requires call { IsNextOn (known pass.old) call (group_of self.now.count region) }
        requires time { time < 2 ^ 63 }
        ensures puts { PutsOn (named N1.name N2.name N3.name N4.name) time region (is_sync durability) batch call (put_answer result)
            (known pass.old) (known pass.new) (group_of self.now.count region) }
        ensures exact { IsExactOn (is_sync durability) region result pass.old pass.new (group_of self.now.count region) }
        ensures elsewhere { StayElsewhere (group_of self.now.count region) (known pass.old) (known pass.new) }
        ensures of { IsGroupPassOf self.now pass.new }
    {
        let put = GroupPut {
            region,
            call,
            time,
            durability,
            batch,
        };
        match self.group(region) {
            1 => put_with(&self.first, rt, alloc, &mut pass.first, put, gate),
            2 => put_at(&self.second, rt, alloc, &mut pass.second, put, gate),
            3 => put_at(&self.third, rt, alloc, &mut pass.third, put, gate),
            4 => put_at(&self.fourth, rt, alloc, &mut pass.fourth, put, gate),
            _ => unreachable!(),
        }
    }

    /// The cells of a region whose rows lie at or above `from` and, if `to` isn't empty, below `to`, at a point that was shown. It waits for
    /// nobody. The point is at or above each one that the pass has seen. After it was out of memory the pass may have seen a later point.
    pub fn scan(
        &self,
        alloc: Global,
        pass: &mut GroupPass<N1, N2, N3, N4>,
        region: u32,
        from: &[u8],
        to: &[u8],
    ) -> Result<ScanReply, NoMemory>
        requires of { IsGroupPassOf self.now pass.old }
        requires region { IsRegionOn (named N1.name N2.name N3.name N4.name) region (group_of self.now.count region) }
        ensures scans { ScansOn (named N1.name N2.name N3.name N4.name) region from.now to.now (scan_answer result)
            (known pass.old) (known pass.new) (group_of self.now.count region) }
        ensures elsewhere { StayElsewhere (group_of self.now.count region) (known pass.old) (known pass.new) }
        ensures of { IsGroupPassOf self.now pass.new }
    {
        match self.group(region) {
            1 => self.first.scan(alloc, &mut pass.first, region, from, to),
            2 => scan_at(&self.second, alloc, &mut pass.second, region, from, to),
            3 => scan_at(&self.third, alloc, &mut pass.third, region, from, to),
            4 => scan_at(&self.fourth, alloc, &mut pass.fourth, region, from, to),
            _ => unreachable!(),
        }
    }

    /// The point of the region's version that is shown, at or above each one that the pass has seen. It waits for nobody.
    pub fn read_point(&self, pass: &mut GroupPass<N1, N2, N3, N4>, region: u32) -> u64
        requires of { IsGroupPassOf self.now pass.old }
        requires region { IsRegionOn (named N1.name N2.name N3.name N4.name) region (group_of self.now.count region) }
        ensures looks { LooksOn (named N1.name N2.name N3.name N4.name) region result (known pass.old) (known pass.new) (group_of self.now.count region) }
        ensures elsewhere { StayElsewhere (group_of self.now.count region) (known pass.old) (known pass.new) }
        ensures of { IsGroupPassOf self.now pass.new }
    {
        match self.group(region) {
            1 => read_point_of(&self.first, &mut pass.first, region),
            2 => read_point_at(&self.second, &mut pass.second, region),
            3 => read_point_at(&self.third, &mut pass.third, region),
            4 => read_point_at(&self.fourth, &mut pass.fourth, region),
            _ => unreachable!(),
        }
    }

    /// Writes what is logged of a family of a region (1 to 127 bytes), or of all where none is given, to a store file on its group's disk, and
    /// answers up to which number, as its group's server does.
    pub fn flush<S: Wait>(
        &self,
        rt: &S,
        alloc: Global,
        pass: &mut GroupPass<N1, N2, N3, N4>,
        region: u32,
        call: u32,
        family: Option<&[u8]>,
    ) -> Result<u64, FlushRefusal>
        requires family { IfSome family (λ f. (1 ≤ length f.now) × (length f.now ≤ 127)) }
        requires of { IsGroupPassOf self.now pass.old }
        requires region { IsRegionOn (named N1.name N2.name N3.name N4.name) region (group_of self.now.count region) }
        requires call { IsNextOn (known pass.old) call (group_of self.now.count region) }
        requires listed { IsListedOn (named N1.name N2.name N3.name N4.name) region (known pass.old) call (group_of self.now.count region) }
        ensures flushes { FlushesOn (named N1.name N2.name N3.name N4.name) region (option_map (λ f. f.now) family.entry) call
            (flush_answer result) (known pass.old) (known pass.new) (group_of self.now.count region) }
        ensures elsewhere { StayElsewhere (group_of self.now.count region) (known pass.old) (known pass.new) }
        ensures of { IsGroupPassOf self.now pass.new }
    {
        match self.group(region) {
            1 => self
                .first
                .flush(rt, alloc, &mut pass.first, region, call, family),
            2 => flush_at(
                &self.second,
                rt,
                alloc,
                &mut pass.second,
                region,
                call,
                family,
            ),
            3 => flush_at(
                &self.third,
                rt,
                alloc,
                &mut pass.third,
                region,
                call,
                family,
            ),
            4 => flush_at(
                &self.fourth,
                rt,
                alloc,
                &mut pass.fourth,
                region,
                call,
                family,
            ),
            _ => unreachable!(),
        }
    }

    /// Closes the file of the log of the handler's group, which is that of the region with the handler's number, and begins the next one.
    pub fn roll<S: Wait>(
        &self,
        rt: &S,
        alloc: Global,
        pass: &mut GroupPass<N1, N2, N3, N4>,
    ) -> Result<Rolled, RollRefusal>
        requires of { IsGroupPassOf self.now pass.old }
        requires handler { 1 ≤ (known pass.old 1).handler }
        ensures rolls { RollsOn (roll_answer result) (known pass.old) (known pass.new) (group_of self.now.count (known pass.old 1).handler) }
        ensures elsewhere { StayElsewhere (group_of self.now.count (known pass.old 1).handler) (known pass.old) (known pass.new) }
        ensures of { IsGroupPassOf self.now pass.new }
    {
        match self.group(pass.handler()) {
            1 => self.first.roll(rt, alloc, &mut pass.first),
            2 => roll_at(&self.second, rt, alloc, &mut pass.second),
            3 => roll_at(&self.third, rt, alloc, &mut pass.third),
            4 => roll_at(&self.fourth, rt, alloc, &mut pass.fourth),
            _ => unreachable!(),
        }
    }

    /// Helps the log of the helper's group: one turn of each kind. Busy only where its last exchange on one of the two turn words found the word
    /// taken, Nothing only where both were found free or the log is broken, and Something only where it had one of the two turns.
    pub fn help<S: Wait>(&self, rt: &S, helper: &mut GroupHelper) -> Helped
        requires helper { IsHelperOf self.now helper.old }
        ensures helper { IsHelperOf self.now helper.new }
        ensures group { helper.new.group ≡ helper.old.group }
        ensures helped { HasHelped result helper.old.seat helper.new.seat }
    {
        match helper.group {
            1 => help_with(&self.first, rt, &mut helper.seat),
            2 => help_at(&self.second, rt, &mut helper.seat),
            3 => help_at(&self.third, rt, &mut helper.seat),
            4 => help_at(&self.fourth, rt, &mut helper.seat),
            _ => unreachable!(),
        }
    }
}

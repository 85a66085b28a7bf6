//! A service of sixteen regions and seats, from its start to its close, over an empty disk whose syncs can be held back.

ghost use Rattle.std.specs.Prelude.{◌≡◌, ◌≤◌, ℕ, [], None, length, replicate, vec_capacity, All, IfOk};
ghost use Rattle.crossbeam_queue.specs.Passes.{view};
ghost use Rattle.log_model.specs.Files.{Files, IsAbsent};
ghost use Rattle.log_ledger.specs.History.{History};
ghost use Rattle.log_device.specs.Whole.{disk_of};
ghost use Rattle.disk_images.specs.Crash.{IsQuiet};
ghost use Rattle.disk_fakes.specs.Watch.{watched};
ghost use Rattle.disk_fakes.specs.Views.{view_of, faults_of};
ghost use Rattle.log_service.specs.Begun.{IsFresh, BeginsAs, AreNewParts, AreParts};
ghost use Rattle.service_trials.specs.Crew.{IsOf};

use crate::crew::run_each;
use crate::crowd::{Told, hand_out, take_back};
use crate::member::Member;
use crate::regions::{REGIONS, sixteen_rings};
use crate::steps::Trial;
use crate::watch::Watch;
use disk_fakes::{Fail, MemDisk, WatchDisk};
use log_device::Device;
use log_service::{LogService, Rings, ServiceNaming, ServiceParts};
use std::alloc::Global;
use std::marker::Brand;
use std::process::Abort;
use std::snapshot::Snapshot;
use std::sync::atomic::AtomicU64;
use std::sync::{Arc, Wait};
use std::thread::Threads;

pub(crate) type HeldDisk = WatchDisk<MemDisk>;

/// What is left of a service, and what its members told: up to which edits the last region is synced, and the least number up to which any is.
/// Where the device was refused nothing was started.
#[derive(Drop)]
pub(crate) struct HeldEnd {
    pub(crate) disk: HeldDisk,
    pub(crate) started: bool,
    pub(crate) broken: bool,
    pub(crate) synced: u64,
    pub(crate) least: u64,
    pub(crate) told: Told,
}

/// The last and the least of sixteen numbers.
fn last_and_least(numbers: &[u64]) -> (u64, u64) {
    let mut last = 0;
    let mut least = u64::MAX;
    for number in numbers.iter().take(16) {
        last = *number;
        least = least.min(last);
    }
    (last, least)
}

/// Room for sixteen members.
fn room_of<R: Abort>(rt: &R, alloc: Global) -> Vec<Member>
    ensures { (result.items ≡ []) × (16 ≤ vec_capacity result) }
{
    match Vec::with_capacity(alloc, 16) {
        Ok(room) => room,
        Err(_) => panic!(rt; "memory is ample"),
    }
}

/// Starts a service over a device, has a trial run on it, and closes it.
fn over_held<N: ServiceNaming + Send + Sync, R: Wait + Threads + Sync + Abort>(
    rt: &R,
    alloc: Global,
    rings: Rings,
    device: Device<HeldDisk>,
    _found: Snapshot<HeldDisk>,
    watch: &Watch,
    trial: Trial,
) -> HeldEnd
    requires lasts { N.lasts ≡ replicate 16 0 }
    requires items { (rings.items.ring.capacity ≡ 1024)
        × AreParts N.ring N.lasts rings.items.ring.id rings.items.consumer.pass.table_id (view rings.items.consumer.pass) rings.items.passes }
    requires chains { (rings.chains.ring.capacity ≡ 2)
        × AreParts N.chain_ring N.lasts rings.chains.ring.id rings.chains.consumer.pass.table_id (view rings.chains.consumer.pass) rings.chains.passes }
    requires came { N.came [] None }
    requires device { IsFresh N.lasts device }
    requires whole { ∥ ((h : History) × BeginsAs N.begun N.lasts device (view_of (watched (disk_of device))) h) ∥₁ }
    requires start { N.start ≡ (view_of (watched (disk_of device))).clock }
    requires past { (t : ℕ) (J : Files) → t ≤ N.start
        → ((view_of (watched (disk_of device))).image t J → N.past t J) × (N.past t J → (view_of (watched (disk_of device))).image t J) }
    requires faults { N.faults ≡ faults_of (watched (disk_of device)) }
{
    let mut crew = room_of(rt, alloc);
    let Ok(
        ServiceParts {
            service,
            mut passes,
            mut seats,
        },
    ) = LogService::<HeldDisk, N>::start(alloc, rings, device, 16, 16)
    else {
        panic!(rt; "memory is ample")
    };
    hand_out(&service, &mut passes, &mut seats, &mut crew);
    run_each(rt, alloc, &service, watch, &mut crew, trial);
    let told = take_back(rt, &service, crew, &mut passes, &mut seats);
    let closed = service.close(rt, seats, passes);
    let (synced, least) = last_and_least(closed.synced.as_slice());
    HeldEnd {
        disk: closed.disk,
        started: true,
        broken: closed.broken,
        synced,
        least,
        told,
    }
}

/// A word that threads share, and its twin.
fn word_and_twin<R: Abort>(rt: &R, alloc: Global) -> (Arc<AtomicU64>, Arc<AtomicU64>) {
    let Ok(word) = Arc::new(alloc, AtomicU64::new(0)) else {
        panic!(rt; "memory is ample")
    };
    match Arc::try_clone(&word) {
        Ok(twin) => (word, twin),
        Err(_) => panic!(rt; "memory is ample"),
    }
}

/// An empty disk whose calls of these kinds and numbers fail, and what two threads tell one another of it.
fn watched_disk<R: Abort>(rt: &R, alloc: Global, fails: &[Fail]) -> (HeldDisk, Watch)
    ensures empty { (m : _) → IsAbsent (view_of (watched result.0)).files m }
    ensures none_gone { (m : _) → ¬ (view_of (watched result.0)).gone m }
    ensures quiet { IsQuiet (view_of (watched result.0)) }
{
    let Ok(mem) = MemDisk::new(alloc, fails) else {
        panic!(rt; "memory is ample")
    };
    let (seen, its_seen) = word_and_twin(rt, alloc);
    let (held, its_held) = word_and_twin(rt, alloc);
    (
        WatchDisk::new(mem, its_seen, its_held),
        Watch::new(seen, held),
    )
}

/// Runs a trial over an empty disk.
fn on_disk<R: Wait + Threads + Sync + Abort>(
    rt: &R,
    alloc: Global,
    disk: HeldDisk,
    watch: &Watch,
    trial: Trial,
) -> HeldEnd
    requires empty { (m : _) → IsAbsent (view_of (watched disk)).files m }
    requires none_gone { (m : _) → ¬ (view_of (watched disk)).gone m }
    requires quiet { IsQuiet (view_of (watched disk)) }
{
    let found = Snapshot::of(&disk);
    match Device::start(alloc, disk, &REGIONS) {
        Ok(device) => {
            let rings = sixteen_rings(rt, alloc);
            over_held::<Brand, R>(rt, alloc, rings, device, found, watch, trial)
        }
        Err(refusal) => HeldEnd {
            disk: refusal.disk,
            started: false,
            broken: false,
            synced: 0,
            least: 0,
            told: Told::nothing(),
        },
    }
}

/// Runs a trial over an empty disk whose calls of these kinds and numbers fail.
pub(crate) fn run_held<R: Wait + Threads + Sync + Abort>(
    rt: &R,
    alloc: Global,
    fails: &[Fail],
    trial: Trial,
) -> HeldEnd {
    let (disk, watch) = watched_disk(rt, alloc, fails);
    on_disk(rt, alloc, disk, &watch, trial)
}

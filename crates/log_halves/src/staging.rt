//! A chain is staged and committed.
ghost use Rattle.std.specs.Prelude.{◌≡◌, ◌≤◌, ◌+◌, ◌↔◌, ℕ, List, [], length, get_or, Some, IsTrue, IfOk, OnOk, OnErr, IsErr};
ghost use Rattle.log_model.specs.Entry.{Entry};
ghost use Rattle.recovery_laws.specs.Kept.{IsOrderly};
ghost use Rattle.log_file.specs.Open.{OpenLog};
ghost use Rattle.log_trucks.specs.Held.{AreHeld};
ghost use Rattle.log_ledger.specs.Numbers.{AreStoresFew};
ghost use Rattle.log_ledger.specs.History.{History, committed_in};
ghost use Rattle.log_device.specs.Bears.{Bears};
ghost use Rattle.log_device.specs.Whole.{IsBroken, IsIdle, disk_of, log_of, numbers_of, HasHistory, EachImage, LeavesAt, CausesFault};
ghost use Rattle.log_halves.specs.Trucks.{AreSpelled, FollowOn, size_of, come_to};
ghost use Rattle.log_halves.specs.Commits.{all_staged_in, AreServed, SameTold, drawn_in};

use crate::chain::FrameChain;
use disk_images::Disk;
use log_device::{Device, WriteFault};
use log_trucks::Chain;

// Stages the trucks of a chain, for which there is room.
fn stage_all<D: Disk>(device: &mut Device<D>, chain: Chain)
    requires unbroken { IsBroken device.old → ⊥ }
    requires served { AreServed (numbers_of device.old) chain }
    requires spelled { AreSpelled chain }
    requires rising { (n : ℕ) × FollowOn n (drawn_in (numbers_of device.old)) chain }
    requires room { (file : OpenLog) → log_of device.old ≡ Some file → length file.bytes + size_of chain ≤ 4194304 }

    ensures whole { IsTrue D.told → (h : History) (es : List Entry) → HasHistory D.Disk device.old h → AreHeld chain es
        → HasHistory D.Disk device.new (all_staged_in h es) }
    ensures disk { disk_of device.new ≡ disk_of device.old }
    ensures file { (file : OpenLog) → log_of device.old ≡ Some file → (now : OpenLog) × (log_of device.new ≡ Some now)
        × (now.staged ≡ file.staged + length chain) × (now.name ≡ file.name) }
    ensures drawn { (r : ℕ) → drawn_in (numbers_of device.new) r ≡ come_to (drawn_in (numbers_of device.old)) chain r }
    ensures same { SameTold (numbers_of device.old) (numbers_of device.new) }
{
    let mut rest = chain;
    while let Some(truck) = rest.pop() {
        match device.stage(truck) {
            Ok(()) => {}
            Err(_) => unreachable!(),
        }
    }
}

// Stages a chain and commits it.
pub(crate) fn commit_chain<D: Disk>(
    device: &mut Device<D>,
    chain: FrameChain,
) -> Result<u64, WriteFault>
    requires unbroken { IsBroken device.old → ⊥ }
    requires idle { IsIdle (log_of device.old) }
    requires served { AreServed (numbers_of device.old) chain }
    requires spelled { AreSpelled chain }
    requires rising { (n : ℕ) × FollowOn n (drawn_in (numbers_of device.old)) chain }
    requires size { size_of chain ≤ 4194304 }
    requires whole { IsTrue D.told → ∥ ((h : History) × HasHistory D.Disk device.old h × (h.kept.staged ≡ [])) ∥₁ }

    // At each moment each image recovers to the files as they read with a beginning of the chain's entries, and none or all of it is committed.
    ensures any_moment { IsTrue D.told → (h : History) (es : List Entry) → HasHistory D.Disk device.old h → h.kept.staged ≡ []
        → AreHeld chain es → EachImage D.Disk (LeavesAt D.Disk device.old es) 4 device.old device.new }
    ensures names { IsTrue D.told → (h : History) (es : List Entry) (file : OpenLog) → HasHistory D.Disk device.old h
        → AreHeld chain es → log_of device.old ≡ Some file
        → EachImage D.Disk (Bears h.kept.base (numbers_of device.old).next_store file.name.number) 4 device.old device.new }
    ensures committed { IsTrue D.told → (h : History) (es : List Entry) → HasHistory D.Disk device.old h → h.kept.staged ≡ []
        → AreHeld chain es → OnOk result (HasHistory D.Disk device.new (committed_in (all_staged_in h es))) }
    ensures orderly { IsTrue D.told → (h : History) (es : List Entry) → HasHistory D.Disk device.old h → AreHeld chain es
        → IsOrderly (all_staged_in h es).kept }
    ensures count { IfOk result (λ n. n ≡ length chain) }
    ensures emptied { IsIdle (log_of device.new) }
    ensures drawn { (r : ℕ) → drawn_in (numbers_of device.new) r ≡ come_to (drawn_in (numbers_of device.old)) chain r }
    ensures synced { OnOk result ((numbers_of device.new).synced ≡ (numbers_of device.new).drawn) }
    ensures faulty { OnErr result ((numbers_of device.new).synced ≡ (numbers_of device.old).synced) }
    ensures few { (limit : ℕ) → AreStoresFew limit (numbers_of device.old) → AreStoresFew limit (numbers_of device.new) }
    ensures rises { (r : ℕ) → get_or (numbers_of device.old).synced r 0 ≤ get_or (numbers_of device.new).synced r 0 }
    ensures told { ((numbers_of device.new).stored ≡ (numbers_of device.old).stored)
        × ((numbers_of device.new).closed ≡ (numbers_of device.old).closed) × ((numbers_of device.new).next_store ≡ (numbers_of device.old).next_store) }
    ensures broken { IsErr result ↔ IsBroken device.new }
    ensures cause { CausesFault D.Disk device.old device.new (IsErr result) }
{
    stage_all(device, chain.into_chain());
    // For the proof, which goes by the branches: each is answered as it came.
    match device.sync() {
        Ok(count) => Ok(count),
        Err(WriteFault) => Err(WriteFault),
    }
}

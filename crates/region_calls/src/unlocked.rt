//! A region under its name, before its pass of the log's ring is there.

ghost use Rattle.std.specs.Prelude.{◌≡◌, ◌≤◌, ◌<◌, IfOk, None};
ghost use Rattle.append_ring.specs.Parts.{IsNew};
ghost use Rattle.region_calls.specs.Hands.{deal_of};
ghost use Rattle.region_calls.specs.Seeds.{IsSeed};
ghost use Rattle.region_calls.specs.Named.{IsNamedSeed};

use crate::hands::RegionHands;
use crate::seeds::RegionSeeds;
use append_ring::RingKey;
use hand_register::{Desk, DeskParts};
use kv_cell::NoMemory;
use pass_calls::log_service::Item;
use pass_calls::region_lock::Locked;
use region_state::{Line, RegionState};
use region_versions::{History, Shower, VersionParts, versions};
use std::alloc::Global;
use std::marker::Model;
use std::sync::Wait;

/// All that lies under a region's lock, but its key of the ring. Contracts see the region.
#[derive(Drop)]
pub(crate) struct Unlocked<
    N: pass_calls::region_lock::LockNaming
        + pass_calls::log_service::ServiceNaming
        + region_versions::VersionsNaming,
    R: Wait + Drop,
> {
    state: RegionState,
    desk: Desk<Line>,
    spent: Desk<u64>,
    history: History<N>,
    shower: Shower<N, R>,
}

impl<
    N: pass_calls::region_lock::LockNaming
        + pass_calls::log_service::ServiceNaming
        + region_versions::VersionsNaming,
    R: Wait + Drop,
> Model for Unlocked<N, R> {
    ghost use Rattle.std.specs.Prelude.{ℕ};
    ghost use Rattle.region_calls.specs.Named.{IsUnlocked};

    ghost Value = { ℕ };

    ghost view = { λ u. u.state.region };

    ghost invariant = { λ u. IsUnlocked (N.desk u.state.region) (N.spent u.state.region) (N.region_base u.state.region) N.lasts N.handlers
        u.state u.desk u.spent u.history u.shower.shown };
}

/// The region, and the hands of its handlers.
#[derive(Drop)]
pub(crate) struct NamedRegion<
    N: pass_calls::region_lock::LockNaming
        + pass_calls::log_service::ServiceNaming
        + region_versions::VersionsNaming,
    R: Wait + Drop,
> {
    pub(crate) unlocked: Unlocked<N, R>,
    pub(crate) hands: RegionHands<N>,
}

impl<
    N: pass_calls::region_lock::LockNaming
        + pass_calls::log_service::ServiceNaming
        + region_versions::VersionsNaming,
    R: Wait + Drop,
> NamedRegion<N, R> {
    /// Gives a region's parts their name. It keeps the handle `rt`, since its drop waits for those that view it.
    pub(crate) fn new(
        rt: R,
        alloc: Global,
        seeds: RegionSeeds,
        handlers: u32,
    ) -> Result<NamedRegion<N, R>, NoMemory>
        requires seed { IsSeed handlers seeds.state.region seeds }
        requires handlers { (1 ≤ handlers) × (handlers ≤ 16) × (handlers ≡ N.handlers) }
        requires named { IsNamedSeed N.desk N.spent N.book N.region_base N.lasts seeds }
        ensures region { IfOk result (λ n. n.unlocked ≡ seeds.state.region) }
        ensures hands { IfOk result (λ n. n.hands ≡ deal_of seeds.state.region 1 handlers) }
    {
        let RegionSeeds {
            state,
            version,
            opened,
            desk: DeskParts { desk, hands: ours },
            spent: DeskParts {
                desk: spent,
                hands: theirs,
            },
        } = seeds;
        let region = state.region();
        let history = opened.named::<N>(region);
        let VersionParts { shower, viewers } = versions::<N, R>(
            rt,
            alloc,
            version,
            history.front(),
            handlers,
        )?;
        let hands = RegionHands {
            region,
            next: 1,
            left: handlers,
            ours,
            theirs,
            viewers,
        };
        let unlocked = Unlocked {
            state,
            desk,
            spent,
            history,
            shower,
        };
        Ok(NamedRegion { unlocked, hands })
    }
}

impl<
    N: pass_calls::region_lock::LockNaming
        + pass_calls::log_service::ServiceNaming
        + region_versions::VersionsNaming,
    R: Wait + Drop,
> Unlocked<N, R> {
    /// The value of the region's lock, with its pass, under which nothing was pushed.
    pub(crate) fn with_pass(self, pass: RingKey<Item>) -> Locked<N, R>
        requires { IsNew N.ring N.lasts self pass }
        ensures { (result.state.region ≡ self) × (result.mark ≡ None) }
    {
        let Unlocked {
            state,
            desk,
            spent,
            history,
            shower,
        } = self;
        Locked::of(state, pass, desk, spent, history, shower)
    }
}

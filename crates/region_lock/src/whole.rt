//! The value of a region's lock at the start.

ghost use Rattle.std.specs.Prelude.{◌≡◌, [], None, replicate};
ghost use Rattle.append_ring.specs.Parts.{IsNew};
ghost use Rattle.append_ring.specs.Rules.{base_of};
ghost use Rattle.hand_register.specs.Rule.{empty};
ghost use Rattle.region_versions.specs.Histories.{beginning};

use crate::locked::Locked;
use crate::naming::LockNaming;
use append_ring::RingKey;
use hand_register::Desk;
use log_service::Item;
use region_state::{Line, RegionState};
use region_versions::{History, Shower};
use std::sync::Wait;

impl<
    N: LockNaming + log_service::ServiceNaming + region_versions::VersionsNaming,
    R: Wait + Drop,
> Locked<N, R> {
    /// A region with no edit since its base: its key of the ring, under which nothing was pushed; its two desks, whose hands have done
    /// nothing; and its history, which is empty, and is shown.
    pub fn of(
        state: RegionState,
        pass: RingKey<Item>,
        desk: Desk<Line>,
        spent: Desk<u64>,
        history: History<N>,
        shower: Shower<N, R>,
    ) -> Locked<N, R>
        requires lines { state.lines ≡ [] }
        requires base { state.base ≡ N.region_base state.region }
        requires pass { IsNew N.ring N.lasts state.region pass }
        requires last { base_of N.lasts state.region ≡ state.base.last }
        requires desk { (desk.id ≡ N.desk state.region) × (desk.records ≡ replicate N.handlers empty) }
        requires spent { (spent.id ≡ N.spent state.region) × (spent.records ≡ replicate N.handlers empty) }
        requires history { history ≡ beginning state.region [] }
        requires shown { shower.shown ≡ history }
        ensures state { result.state ≡ state }
        ensures mark { result.mark ≡ None }
    {
        Locked {
            state,
            pass,
            desk,
            spent,
            mark: None,
            shower,
            history,
        }
    }
}

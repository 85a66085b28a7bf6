//! The mark of a flush.

ghost use Rattle.std.specs.Prelude.{◌≡◌, ◌≤◌, None, Contains};
ghost use Rattle.hand_register.specs.Desks.{with_mark};
ghost use Rattle.region_lock.specs.Hands.{SameHand};
ghost use Rattle.region_lock.specs.Marks.{IsLooked};

use crate::locked::Locked;
use crate::naming::LockNaming;
use hand_register::Hand;
use region_state::{Caller, Line};
use std::sync::Wait;

impl<
    N: LockNaming + log_service::ServiceNaming + region_versions::VersionsNaming,
    R: Wait + Drop,
> Locked<N, R> {
    /// The look of a flush. Where a flush is under way it answers its caller, and changes nothing. Else it sets the mark of `by`, in the
    /// state and in the desk, changes nothing else, and gives the write point, which none of the handler's own edits is above. It takes no
    /// memory.
    pub fn look(&mut self, hand: &mut Hand<Line>, by: Caller) -> Result<u64, Caller>
        requires hand { hand.old.desk ≡ N.desk self.old.state.region }
        requires caller { (by.handler ≡ hand.old.number) × (1 ≤ by.call) × Contains (N.flushes self.old.state.region) by }
        requires free { hand.old.record.mark ≡ 0 }
        ensures looked { IsLooked (N.flushes self.old.state.region) by self.old hand.old.record result self.new hand.new.record }
        ensures hand { SameHand hand.old hand.new }
    {
        match self.mark {
            Some(other) => {
                // For the proof: the hand's record is the one that the desk keeps (its clause is what this call is for).
                self.desk.meet(hand);
                Err(other)
            }
            None => {
                // For the proof: a journal is in order (its clause is what this call is for).
                let _all = self.state.journal();
                self.desk.mark(hand, u64::from(by.call));
                self.mark = Some(by);
                Ok(self.state.write_point())
            }
        }
    }

    /// Takes a flush's mark away.
    pub fn unmark(&mut self, hand: &mut Hand<Line>)
        requires hand { hand.old.desk ≡ N.desk self.old.state.region }
        requires marked { 1 ≤ hand.old.record.mark }
        ensures mark { self.new ≡ record self.old { mark = None } }
        ensures clear { hand.new.record ≡ with_mark hand.old.record 0 }
        ensures hand { SameHand hand.old hand.new }
    {
        self.desk.mark(hand, 0);
        self.mark = None;
    }
}

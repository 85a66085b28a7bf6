//! The seats of the threads that help the groups' logs.

ghost use Rattle.std.specs.Prelude.{◌≡◌, ◌≢◌, ◌<◌, ◌+◌, ℕ, IfSome, IfNone};
ghost use Rattle.group_calls.specs.Helpers.{IsHelperOf};
ghost use Rattle.group_calls.specs.Servers.{Servers};
ghost use Rattle.groups_run.specs.Helpers.{held, AreHelpersOf};

use group_calls::GroupHelper;
use group_calls::group_servers::{next_seat_at, put_seat_back_at};
use group_calls::region_calls::Helpers;

/// The seats that are not handed out: at first two of each group.
#[derive(Drop)]
pub struct GroupHelpers {
    pub(crate) first: Helpers,
    pub(crate) second: Option<Helpers>,
    pub(crate) third: Option<Helpers>,
    pub(crate) fourth: Option<Helpers>,
}

impl GroupHelpers {
    /// A seat: first group 1's two, then group 2's, and so on; and None exactly where all are handed out. It takes no memory.
    pub fn next(&mut self) -> Option<GroupHelper>
        ensures some { IfSome result (λ h. (held self.old h.group ≡ held self.new h.group + 1)
            × ((k : ℕ) → k ≢ h.group → held self.new k ≡ held self.old k)) }
        ensures none { IfNone result ((k : ℕ) → (held self.old k ≡ 0) × (held self.new k ≡ 0)) }
        ensures of { (s : Servers) → AreHelpersOf s self.old → AreHelpersOf s self.new × IfSome result (λ h. IsHelperOf s h) }
    {
        match self.first.next() {
            Some(seat) => Some(GroupHelper { group: 1, seat }),
            None => match next_seat_at(&mut self.second) {
                Some(seat) => Some(GroupHelper { group: 2, seat }),
                None => match next_seat_at(&mut self.third) {
                    Some(seat) => Some(GroupHelper { group: 3, seat }),
                    None => match next_seat_at(&mut self.fourth) {
                        Some(seat) => Some(GroupHelper { group: 4, seat }),
                        None => None,
                    },
                },
            },
        }
    }

    /// Takes a seat back: one of its group is handed out. It takes no memory.
    pub fn put_back(&mut self, helper: GroupHelper)
        requires of { (s : Servers) × AreHelpersOf s self.old × IsHelperOf s helper }
        requires room { held self.old helper.group < 2 }
        ensures count { held self.new helper.group ≡ held self.old helper.group + 1 }
        ensures others { (k : ℕ) → k ≢ helper.group → held self.new k ≡ held self.old k }
        ensures of { (s : Servers) → AreHelpersOf s self.old → IsHelperOf s helper → AreHelpersOf s self.new }
    {
        let GroupHelper { group, seat } = helper;
        // Each arm returns, since the proof goes by the arms.
        match group {
            1 => return self.first.put_back(seat),
            2 => return put_seat_back_at(&mut self.second, seat),
            3 => return put_seat_back_at(&mut self.third, seat),
            4 => return put_seat_back_at(&mut self.fourth, seat),
            _ => unreachable!(),
        }
    }
}

//! The passes that no handler has.

ghost use Rattle.std.specs.Prelude.{◌≡◌, ◌<◌, IfSome, IfNone};
ghost use Rattle.groups_run.specs.Dealing.{AreGroupPassesOf, HasRoom, HasNext, HasBack, groups_out};
ghost use Rattle.group_calls.specs.Passes.{IsGroupPassOf};
ghost use Rattle.group_calls.specs.Servers.{Servers};

use group_calls::GroupPass;
use group_calls::group_servers::{next_at, put_back_at};
use group_calls::handler_threads::ServerName;
use group_calls::region_calls::Passes;

/// The passes that no handler has: those that are not handed out yet, in parts, and those that are back.
#[derive(Drop)]
pub struct GroupPasses<N1: ServerName, N2: ServerName, N3: ServerName, N4: ServerName> {
    pub(crate) first: Passes<N1>,
    pub(crate) second: Option<Passes<N2>>,
    pub(crate) third: Option<Passes<N3>>,
    pub(crate) fourth: Option<Passes<N4>>,
}

impl<N1: ServerName, N2: ServerName, N3: ServerName, N4: ServerName> GroupPasses<N1, N2, N3, N4> {
    /// The passes of the next handler, from 1 on, and None exactly after the last. It takes no memory.
    pub fn next(&mut self) -> Option<GroupPass<N1, N2, N3, N4>>
        requires of { (s : Servers) × AreGroupPassesOf s N1.handlers N2.handlers N3.handlers N4.handlers self.old }
        ensures some { IfSome result (λ pass. (groups_out self.old < N1.handlers) × HasNext self.old pass self.new) }
        ensures none { IfNone result ((groups_out self.old ≡ N1.handlers) × (groups_out self.new ≡ N1.handlers)) }
        ensures of { (s : Servers) → AreGroupPassesOf s N1.handlers N2.handlers N3.handlers N4.handlers self.old
            → AreGroupPassesOf s N1.handlers N2.handlers N3.handlers N4.handlers self.new × IfSome result (λ pass. IsGroupPassOf s pass) }
    {
        match self.first.next() {
            None => None,
            Some(first) => {
                let second = next_at(&mut self.second);
                let third = next_at(&mut self.third);
                let fourth = next_at(&mut self.fourth);
                Some(GroupPass {
                    first,
                    second,
                    third,
                    fourth,
                })
            }
        }
    }

    /// Takes a handler's passes back. Some are out. It takes no memory.
    pub fn put_back(&mut self, pass: GroupPass<N1, N2, N3, N4>)
        requires of { (s : Servers) × AreGroupPassesOf s N1.handlers N2.handlers N3.handlers N4.handlers self.old × IsGroupPassOf s pass }
        requires room { HasRoom self.old }
        ensures back { HasBack self.old pass self.new }
        ensures of { (s : Servers) → AreGroupPassesOf s N1.handlers N2.handlers N3.handlers N4.handlers self.old → IsGroupPassOf s pass
            → AreGroupPassesOf s N1.handlers N2.handlers N3.handlers N4.handlers self.new }
    {
        let GroupPass {
            first,
            second,
            third,
            fourth,
        } = pass;
        self.first.put_back(first);
        put_back_at(&mut self.second, second);
        put_back_at(&mut self.third, third);
        put_back_at(&mut self.fourth, fourth);
    }
}

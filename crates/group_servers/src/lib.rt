//! One group's server, and what is done with it where there is one: its store is recovered and looked at, a log is begun on it, it is named and
//! started, it is called, its passes and seats are handed out, and it is closed. Several groups' servers are put together of these, with a value for
//! each group in a list.
#![tactic(auto)]

mod at;
mod beginning;
mod checking;
mod dealing;
mod letting;
mod recovering;
mod refusal;
mod shutting;
mod starting;
mod stores;

pub use at::{
    GroupPut, flush_at, help_at, help_with, put_at, put_with, read_point_at, read_point_of,
    roll_at, scan_at,
};
pub use beginning::{begin_each, disk_at};
pub use dealing::{next_at, next_seat_at, put_back_at, put_seat_back_at};
pub use group_lists::{GroupList, choose, group_in};
pub use handler_threads;
pub use handler_threads::region_calls;
pub use letting::{let_go, let_go_at};
pub use recovering::{FoundStore, StoresRefusal};
pub use refusal::{GroupsRefusal, GroupsWhy};
pub use shutting::{ServerEnd, close_at, close_one};
pub use starting::start_at;
pub use stores::recover_groups;

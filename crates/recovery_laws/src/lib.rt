//! What a change of one file does to what the files of a store recover to: laws over plain files, with no disk.
//!
//! A store is changed by a batch that goes into a log, by copies of logged entries in an edits file, by a store file that
//! appears, and by a log that goes. Each law says what the files recover to then, region by region. When a change reaches
//! a disk, and what a crash leaves of it, is said elsewhere. The steps of an opening change nothing of what is recovered,
//! for any region: copies, stores that appear, and logs and edits files that go.
#![tactic(auto)]

mod laws;
mod opening;

pub use laws::{commit_adds, copies_add_nothing, flushed_log_may_go, store_changes_nothing};
pub use opening::{
    alike_in_turn, copies_change_nothing, hidden_store_is_nothing, kept_file_may_go,
    old_logs_are_nothing, replay_changes_nothing,
};

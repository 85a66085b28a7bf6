//! The chronicle of a store: the entries of all its logs in one list, which a log that is written on prolongs, and from
//! which entries are shipped to a peer, as HBase replicates its logs. Definitions and laws.
#![tactic(auto)]

mod laws;

pub use laws::{
    appending_prolongs, chronicle_is_one, later_entries_are_behind, reached_stays, same_logs_go_on,
    shipping_goes_on,
};

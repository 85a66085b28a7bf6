//! What a load leaves, and what it prints: definitions, and the law that a report of its run gives it.
#![tactic(auto)]

mod laws;

pub use laws::each_put_is_counted_once;

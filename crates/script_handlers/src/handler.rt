//! A script's handler.

use run_model::Spent;
use script_calls::{Call, ReplyLine};

/// A handler with its pass, the calls that it is to make, its replies, and the first of its puts that found no sequence id
/// left.
#[derive(Drop)]
pub struct Handler<P> {
    pub pass: P,
    pub calls: Vec<Call>,
    pub replies: Vec<ReplyLine>,
    pub spent: Option<Spent>,
}

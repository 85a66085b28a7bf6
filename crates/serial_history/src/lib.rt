//! What lawful replies are, in the words of a region of one thread: definitions, and the law that the replies of all
//! handlers on a region are a history of one thread.
#![tactic(auto)]

mod laws;

pub use laws::lawful_replies_are_of_one_thread;

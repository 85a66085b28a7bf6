//! What a handler's pass knows of its server, what each call of a server does to it, and what a closed server hands on:
//! definitions, and the law that the replies of all handlers are lawful.
#![tactic(auto)]

mod laws;

pub use laws::replies_are_lawful;

//! Trials of a folder's opening over a system in memory: each call of it cut or failed, and what a crash then leaves. A library of tests
//! alone, on which nothing stands.
#![tactic(auto)]

#[cfg(test)]
mod former;
#[cfg(test)]
mod openings;

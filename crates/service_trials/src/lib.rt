//! Trials of the log service and of a running server over a disk in memory. Of the service: moves beside another thread's commit, a roll
//! after chains and after a full ring, a thread that waits for the log, sixteen threads that put, and a fault of each disk call with what a
//! crash leaves then. Of a server: scans that are read a page at a time beside later puts, and the point that a reader is shown. Of a region's
//! versions: what is told, and what is found while others are shown. A library of tests alone, at the top, so that no crate waits for it.
#![tactic(auto)]

#[cfg(test)]
mod asking;
#[cfg(test)]
mod cells;
#[cfg(test)]
mod crew;
#[cfg(test)]
mod crowd;
#[cfg(test)]
mod ends;
#[cfg(test)]
mod entries;
#[cfg(test)]
mod faults;
#[cfg(test)]
mod held;
#[cfg(test)]
mod image;
#[cfg(test)]
mod learning;
mod member;
#[cfg(test)]
mod name;
#[cfg(test)]
mod puts;
#[cfg(test)]
mod regions;
#[cfg(test)]
mod serving;
#[cfg(test)]
mod sharing;
#[cfg(test)]
mod showing;
#[cfg(test)]
mod steps;
#[cfg(test)]
mod telling;
#[cfg(test)]
mod viewing;
#[cfg(test)]
mod watch;

pub use member::Member;

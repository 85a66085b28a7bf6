//! Trials on a disk in memory that tells what it holds: a device, whose logs are shipped too, its accounting over time, the opening of
//! a store, regions that are replayed one by one, and compactions; faults of each disk call, crashes at each moment. A library of tests
//! alone, at the top, so that no crate waits for it.
#![tactic(auto)]

#[cfg(test)]
mod accounts;
#[cfg(test)]
mod ahead;
#[cfg(test)]
mod bench;
#[cfg(test)]
mod compact_stops;
#[cfg(test)]
mod compact_texts;
#[cfg(test)]
mod entries;
#[cfg(test)]
mod failing;
#[cfg(test)]
mod faults;
#[cfg(test)]
mod files;
#[cfg(test)]
mod image;
#[cfg(test)]
mod logs;
#[cfg(test)]
mod opened;
#[cfg(test)]
mod peers;
#[cfg(test)]
mod replays;
#[cfg(test)]
mod reports;
#[cfg(test)]
mod script;
#[cfg(test)]
mod shipping;
#[cfg(test)]
mod stops;
#[cfg(test)]
mod texts;
#[cfg(test)]
mod versions;
#[cfg(test)]
mod worked;

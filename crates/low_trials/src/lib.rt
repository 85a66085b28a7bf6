//! Trials of the low crates and of the disks, of what rows can't show: cells at their limits, cells and logs in pieces, chains of trucks,
//! store files that are damaged, a region's parts; the disks, sources and sinks in memory, what a crash of them may leave, and a sync that is held back; the
//! real folder and the streams. A library of tests alone, on which nothing stands.
#![tactic(auto)]

#[cfg(test)]
mod calls;
#[cfg(test)]
mod cells;
#[cfg(test)]
mod chains;
#[cfg(test)]
mod disks;
#[cfg(test)]
mod edits;
#[cfg(test)]
mod faults;
#[cfg(test)]
mod files;
#[cfg(test)]
mod folders;
#[cfg(test)]
mod frames;
#[cfg(test)]
mod limits;
#[cfg(test)]
mod numbers;
#[cfg(test)]
mod one_file;
#[cfg(test)]
mod reading;
#[cfg(test)]
mod refusing;
#[cfg(test)]
mod sharing;
#[cfg(test)]
mod spellings;
#[cfg(test)]
mod steps;
#[cfg(test)]
mod streams;
#[cfg(test)]
mod watching;

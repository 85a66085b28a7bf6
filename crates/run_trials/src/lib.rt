//! Trials of whole calls on disks in memory: faults of each disk call, crashes and stops at each moment, handlers that are held, and many
//! scripts all of whose puts are found again. What fixed scripts print stands in the rows. A library of tests alone, at the top, so that no
//! crate waits for it.
#![tactic(auto)]

#[cfg(test)]
mod bench;
#[cfg(test)]
mod cuts;
#[cfg(test)]
mod gates;
#[cfg(test)]
mod held;
#[cfg(test)]
mod images;
#[cfg(test)]
mod log_stops;
#[cfg(test)]
mod many;
#[cfg(test)]
mod pair_found;
#[cfg(test)]
mod pair_memory;
#[cfg(test)]
mod pair_worked;
#[cfg(test)]
mod pairs;
#[cfg(test)]
mod plans;
#[cfg(test)]
mod prefixes;
#[cfg(test)]
mod recover_stops;
#[cfg(test)]
mod refused;
#[cfg(test)]
mod report;
#[cfg(test)]
mod scripts;
#[cfg(test)]
mod sweeps;

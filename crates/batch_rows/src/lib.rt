//! Tests of the whole program over devices in memory: each script with the bytes of its replies.
#![tactic(auto)]

#[cfg(test)]
mod faults;
#[cfg(test)]
mod generated;
#[cfg(test)]
mod guard;
#[cfg(test)]
mod parts;
#[cfg(test)]
mod program;
#[cfg(test)]
mod scripts;
#[cfg(test)]
mod words;

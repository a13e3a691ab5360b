//! Tests of iv_host by its public calls: a journal's bytes on disks that fail, what it says at its beginning, who may ask for figures, answers, and counts.
#![tactic(auto)]

#[cfg(test)]
mod answering;
#[cfg(test)]
mod beginning;
#[cfg(test)]
mod disks;
#[cfg(test)]
mod ending;

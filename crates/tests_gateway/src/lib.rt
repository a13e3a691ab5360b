//! Tests of the public calls of iv_gateway: worked conversations of clients with a gateway, byte for byte, and clients that do not read.
#![tactic(auto)]

#[cfg(test)]
mod conversations;
#[cfg(test)]
mod following;
#[cfg(test)]
mod out;
#[cfg(test)]
mod playing;
#[cfg(test)]
mod slow;
#[cfg(test)]
mod steps;
#[cfg(test)]
mod viewd;

//! Tests of the public calls of iv_request, iv_lines, iv_message, iv_engine and iv_wire: messages, ends that fail, memory that is refused.
#![tactic(auto)]

#[cfg(test)]
mod commands;
#[cfg(test)]
mod examples;
#[cfg(test)]
mod failing;
#[cfg(test)]
mod known;
#[cfg(test)]
mod messages;
#[cfg(test)]
mod refused;
#[cfg(test)]
mod replayed;
#[cfg(test)]
mod stepped;

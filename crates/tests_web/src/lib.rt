//! Tests of iv_peer, iv_pages and iv_jwt by their public calls, by RFC 6455, 9110, 9112, 7515 and 4231.
#![tactic(auto)]

#[cfg(test)]
mod conversations;
#[cfg(test)]
mod pages;
#[cfg(test)]
mod texts;
#[cfg(test)]
mod tokens;

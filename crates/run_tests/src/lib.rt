//! What `run` does over shelves and sinks that fail where they are told to, or that never fail, and where memory is
//! refused: no file can show it. The texts themselves are files.
#![tactic(auto)]

#[cfg(test)]
mod statuses;
#[cfg(test)]
mod texts;

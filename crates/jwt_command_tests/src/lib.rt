//! The tests of the command `jwt`, over sources and sinks in memory, and of the libraries that it alone uses: what no clause says. Each command has its
//! file, and what they share is in `runs`.
#![tactic(auto)]

#[cfg(test)]
mod access;
#[cfg(test)]
mod examples;
#[cfg(test)]
mod issue;
#[cfg(test)]
mod jwk;
#[cfg(test)]
mod jwk_sets;
#[cfg(test)]
mod keys;
#[cfg(test)]
mod lines;
#[cfg(test)]
mod mac;
#[cfg(test)]
mod reasons;
#[cfg(test)]
mod runs;
#[cfg(test)]
mod show;
#[cfg(test)]
mod streams;
#[cfg(test)]
mod subjects;
#[cfg(test)]
mod verify;
#[cfg(test)]
mod words;

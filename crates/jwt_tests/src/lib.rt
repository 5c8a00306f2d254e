//! The tests of the libraries, a file for each: what a token is made of, what works on whole tokens, what a service decides beside a verdict; and of
//! the one crate that a service lists.
#![tactic(auto)]

#[cfg(test)]
mod access;
#[cfg(test)]
mod asserted;
#[cfg(test)]
mod document;
#[cfg(test)]
mod door;
#[cfg(test)]
mod expected;
#[cfg(test)]
mod issue;
#[cfg(test)]
mod jws;
#[cfg(test)]
mod keys;
#[cfg(test)]
mod mac;
#[cfg(test)]
mod memory;
#[cfg(test)]
mod once;
#[cfg(test)]
mod policy;
#[cfg(test)]
mod possession;
#[cfg(test)]
mod read;
#[cfg(test)]
mod renewal;
#[cfg(test)]
mod request;
#[cfg(test)]
mod service;
#[cfg(test)]
mod small_service;
#[cfg(test)]
mod sources;
#[cfg(test)]
mod text;
#[cfg(test)]
mod urls;
#[cfg(test)]
mod verify;

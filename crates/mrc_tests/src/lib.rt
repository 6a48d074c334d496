//! Tests of what no contract can say, by the public calls of the libraries. There is nothing else
//! in it.
#![tactic(auto)]

#[cfg(test)]
mod files;
#[cfg(test)]
mod folders;
#[cfg(test)]
mod gates;
#[cfg(test)]
mod refusing;
#[cfg(test)]
mod rules;
#[cfg(test)]
mod running;
#[cfg(test)]
mod seats;
#[cfg(test)]
mod server;
#[cfg(test)]
mod starting;
#[cfg(test)]
mod systems;

//! Tests that cross crates: the program's calls over memory, and each law that no crate calls itself.
#![tactic(auto)]

#[cfg(test)]
mod calls;
#[cfg(test)]
mod case;
#[cfg(test)]
mod gathers;
#[cfg(test)]
mod lanes;
#[cfg(test)]
mod logs;
#[cfg(test)]
mod refusals;
#[cfg(test)]
mod requests;
#[cfg(test)]
mod shown;
#[cfg(test)]
mod streams;

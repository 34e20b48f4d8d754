//! Tests of the top call with devices that fail: each load, each pattern, sinks with each room, the order of work, and want
//! of memory. Each stands on public calls alone, and the library itself is empty.
#![tactic(auto)]

#[cfg(test)]
mod calls;
#[cfg(test)]
mod evidence;
#[cfg(test)]
mod faults;
#[cfg(test)]
mod orders;
#[cfg(test)]
mod tests;

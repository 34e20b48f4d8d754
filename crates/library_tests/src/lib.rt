//! Tests of the libraries below the top call. Each stands on public calls alone, and asks what no run of the program can
//! show: lengths round a border of lanes; files, sinks and makers of patterns that fail; scalars in settings that no document
//! reaches; places that no report names; the spans of tokens; the look-ups of a rule file; cells of names; lines of evidence by themselves.
//! The library itself is empty.
#![tactic(auto)]

#[cfg(test)]
mod block_scalars;
#[cfg(test)]
mod breaking;
#[cfg(test)]
mod cells;
#[cfg(test)]
mod drills;
#[cfg(test)]
mod entries;
#[cfg(test)]
mod evidence;
#[cfg(test)]
mod files;
#[cfg(test)]
mod functions;
#[cfg(test)]
mod lanes;
#[cfg(test)]
mod makers;
#[cfg(test)]
mod names;
#[cfg(test)]
mod places;
#[cfg(test)]
mod quoted;
#[cfg(test)]
mod rules;
#[cfg(test)]
mod scalars;
#[cfg(test)]
mod sinks;
#[cfg(test)]
mod sites;
#[cfg(test)]
mod trees;
#[cfg(test)]
mod words;
#[cfg(test)]
mod worlds;

//! Tests of the crates below, in one crate: a crate with tests of its own is proved once more with
//! them. What each function means is proved where it stands; these are examples.
#![tactic(auto)]

#[cfg(test)]
mod accesses;
#[cfg(test)]
mod assembly;
#[cfg(test)]
mod bit_fields;
#[cfg(test)]
mod code;
#[cfg(test)]
mod executables;
#[cfg(test)]
mod front;
#[cfg(test)]
mod function_types;
#[cfg(test)]
mod heads;
#[cfg(test)]
mod instructions;
#[cfg(test)]
mod late_globals;
#[cfg(test)]
mod lexing;
#[cfg(test)]
mod machine;
#[cfg(test)]
mod nodes;
#[cfg(test)]
mod outline;
#[cfg(test)]
mod outside;
#[cfg(test)]
mod places_in_texts;
#[cfg(test)]
mod programs;
#[cfg(test)]
mod tokens;
#[cfg(test)]
mod widths;

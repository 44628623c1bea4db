//! Tests of the types, of calls run alone and of stores: what no clause says.
#![tactic(auto)]

#[cfg(test)]
mod alone;
#[cfg(test)]
mod boxes;
#[cfg(test)]
mod callbacks;
#[cfg(test)]
mod counter;
#[cfg(test)]
mod said;
#[cfg(test)]
mod store;
#[cfg(test)]
mod tables;

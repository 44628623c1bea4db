//! Tests of parts, versions, the plain model, items, blocks and caches: what no clause says.
#![tactic(auto)]

#[cfg(test)]
mod block;
#[cfg(test)]
mod cache;
#[cfg(test)]
mod claims;
#[cfg(test)]
mod item;
#[cfg(test)]
mod model;
#[cfg(test)]
mod notebook;
#[cfg(test)]
mod part;
#[cfg(test)]
mod said;
#[cfg(test)]
mod scenes;
#[cfg(test)]
mod serial;
#[cfg(test)]
mod version;

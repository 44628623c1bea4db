//! Tests of the library: what each public call answers, with one worker and with two.
#![tactic(auto)]

#[cfg(test)]
mod busy;
#[cfg(test)]
mod calls;
#[cfg(test)]
mod codes;
#[cfg(test)]
mod replayed;
#[cfg(test)]
mod stores;
#[cfg(test)]
mod together;

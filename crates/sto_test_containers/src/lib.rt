//! Tests of records, rings and maps: worked calls, and walks beside plain objects.
#![tactic(auto)]

#[cfg(test)]
mod asking;
#[cfg(test)]
mod maps;
#[cfg(test)]
mod once;
#[cfg(test)]
mod plain;
#[cfg(test)]
mod records;
#[cfg(test)]
mod rings;
#[cfg(test)]
mod walk;
#[cfg(test)]
mod worked;

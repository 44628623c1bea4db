//! Tests of words, scripts, canonical texts, the generated file, journals, summaries and outcomes: what no clause says.
#![tactic(auto)]

#[cfg(test)]
mod body;
#[cfg(test)]
mod canonical;
#[cfg(test)]
mod generated;
#[cfg(test)]
mod journal;
#[cfg(test)]
mod outcomes;
#[cfg(test)]
mod summary;
#[cfg(test)]
mod words;

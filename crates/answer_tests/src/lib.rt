//! Tests of the solver's answers, by public calls alone: from the bytes of a problem to what is printed, the proof being judged once
//! more as if it came from anybody.
#![tactic(auto)]

#[cfg(test)]
mod lines;
#[cfg(test)]
mod made;
#[cfg(test)]
mod plain;
#[cfg(test)]
mod restarts;
#[cfg(test)]
mod rules;
#[cfg(test)]
mod seen;
#[cfg(test)]
mod sinks;
#[cfg(test)]
mod small;
#[cfg(test)]
mod solved;
#[cfg(test)]
mod spelled;

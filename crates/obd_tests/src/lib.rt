//! Tests of the two ends of the program, alone and under `run`: ends that fail, ends without room, and ends over a
//! reader and a writer. What a clause says for all inputs isn't repeated here; a row shows that a call that takes
//! memory succeeds where memory is ample, or what comes of an end that tells no bytes.
#![tactic(auto)]

#[cfg(test)]
mod ends;
#[cfg(test)]
mod reading;
#[cfg(test)]
mod runs;
#[cfg(test)]
mod texts;
#[cfg(test)]
mod writing;

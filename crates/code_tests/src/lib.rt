//! Tests by code of what no contract says: how runs and plans on many threads wait, meet and tell how far they are, how good
//! the plans are that are only guessed, and what faults say. They stand here so that no crate is proved twice for its tests.
#![tactic(auto)]

#[cfg(test)]
mod at_once;
#[cfg(test)]
mod fault_texts;
#[cfg(test)]
mod frame;
#[cfg(test)]
mod generated;
#[cfg(test)]
mod guesses;
#[cfg(test)]
mod heap;
#[cfg(test)]
mod levels;
#[cfg(test)]
mod linked;
#[cfg(test)]
mod meeting;
#[cfg(test)]
mod plan_progress;
#[cfg(test)]
mod recorder_windows;
#[cfg(test)]
mod scripts;
#[cfg(test)]
mod seats;
#[cfg(test)]
mod seeded;
#[cfg(test)]
mod telling;
#[cfg(test)]
mod texts;
#[cfg(test)]
mod threads;
#[cfg(test)]
mod wait_events;

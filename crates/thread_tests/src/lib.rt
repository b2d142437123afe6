//! Tests of threads, for what no clause and no run over memory shows: that they run beside each other, that who waits gets on,
//! and that gates are passed where they are said to be. And of what is flushed, and of the lines and places of a day's text.
#![tactic(auto)]

#[cfg(test)]
mod boards;
#[cfg(test)]
mod contended;
#[cfg(test)]
mod flushes;
#[cfg(test)]
mod gates;
#[cfg(test)]
mod passes;
#[cfg(test)]
mod runs;
#[cfg(test)]
mod same;
#[cfg(test)]
mod texts;
#[cfg(test)]
mod turns;

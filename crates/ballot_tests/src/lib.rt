//! Tests of public calls below a run, where neither a clause nor a run of a tool shows the value: the last revision of a batch
//! and the dealing of batches, how soon strikes are woven and lines packed, copies of a trie, rolls at their greatest, errors of
//! readers and writers of std, a sheet that is too long, words that name no shards, and a made day.
#![tactic(auto)]

#[cfg(test)]
mod books;
#[cfg(test)]
mod packed;
#[cfg(test)]
mod rolls;
#[cfg(test)]
mod same;
#[cfg(test)]
mod samples;
#[cfg(test)]
mod streams;
#[cfg(test)]
mod strikes;
#[cfg(test)]
mod texts;
#[cfg(test)]
mod tries;

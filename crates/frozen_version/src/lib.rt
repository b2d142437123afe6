//! What a freeze keeps, in definitions alone: its place among the calls, the ballots that stood there as plans, and the
//! candidates who were struck.
//!
//! An office keeps it while teams go on calling (`Version` of shard_office), and a replay of a text keeps it for each
//! freeze (`Frozen` of day_replay). Their contracts say the same of both (`StandsIn`), so what counts the ballots of
//! freezes and writes their sheets needs no more than this, and nothing of how the calls were answered.
#![tactic(auto)]

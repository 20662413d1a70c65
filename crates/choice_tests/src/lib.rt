//! Tables of a run by the public names of `table_choice`: words, tables of users beside the shipped ones of flow shards,
//! and gates under the screens that these tables call for. It holds tests alone.
#![tactic(auto)]

#[cfg(test)]
mod table_cases;

//! Gates over sets and cells: worked cases, random calls beside a model that is written down separately, and an object
//! that lacks memory. It holds tests alone, so that no crate below is proved again with them.
#![tactic(auto)]

#[cfg(test)]
mod gate_cases;
#[cfg(test)]
mod meagre_cases;
#[cfg(test)]
mod model;
#[cfg(test)]
mod model_runs;
#[cfg(test)]
mod object_cases;

//! Worked cases of the top call, and of crates together. It holds tests alone, so that no crate below is proved again
//! with them.
#![tactic(auto)]

#[cfg(test)]
mod class_cases;
#[cfg(test)]
mod flow_file_cases;
#[cfg(test)]
mod gate_cases;
#[cfg(test)]
mod run_cases;
#[cfg(test)]
mod schedule_cases;
#[cfg(test)]
mod serial_cases;
#[cfg(test)]
mod table_cases;
#[cfg(test)]
mod table_runs;
#[cfg(test)]
mod trace_cases;
#[cfg(test)]
mod turn_cases;

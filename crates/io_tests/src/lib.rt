//! Files read whole and sinks written whole, in memory and for real: which calls fail, and that calls succeed. It holds
//! tests alone, by public names, so that `gx_io` is not proved again with them.
#![tactic(auto)]

#[cfg(test)]
mod io_cases;

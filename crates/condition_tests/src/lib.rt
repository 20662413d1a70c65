//! Methods, conditions and tables, their order and classes, and lock modes: values worked by hand. It holds tests alone,
//! by public names, so that no crate below is proved again with them.
#![tactic(auto)]

#[cfg(test)]
mod base_cases;
#[cfg(test)]
mod mode_cases;
#[cfg(test)]
mod order_cases;

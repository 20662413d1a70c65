//! Texts of tables of conditions: which are read, which are refused by which fault, and that what is printed is read
//! back. It holds tests alone, by public names, so that no crate below is proved again with them.
#![tactic(auto)]

#[cfg(test)]
mod depth_cases;
#[cfg(test)]
mod fault_cases;
#[cfg(test)]
mod line_cases;
#[cfg(test)]
mod print_cases;
#[cfg(test)]
mod printed_cases;
#[cfg(test)]
mod table_texts;

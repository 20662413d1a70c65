//! Worked cases of books, their limits, and calls beside a plain model. It holds tests alone, so that neither `commit_book`
//! is proved again with them, nor these again where another crate changes.
#![tactic(auto)]

#[cfg(test)]
mod cases;

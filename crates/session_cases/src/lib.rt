//! Sessions over rooms that lose takes, and over many workers: worked cases, and random runs beside a model that is written
//! down separately. But for the rooms and the bodies it holds tests alone, so that no crate below is proved again with them.
#![tactic(auto)]

#[cfg(test)]
mod busy_cases;
#[cfg(test)]
mod diamond_cases;
mod lossy_rooms;
#[cfg(test)]
mod networks;
#[cfg(test)]
mod plain_machine;
#[cfg(test)]
mod plain_rooms;
#[cfg(test)]
mod scheduled_cases;
mod scripts;
#[cfg(test)]
mod spent_cases;

pub use lossy_rooms::LossyRooms;
pub use scripts::{ScriptPlace, Scripts};

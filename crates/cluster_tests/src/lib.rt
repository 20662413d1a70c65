//! Files of points and their clusters: worked by hand, and drawn ones beside a list of points that is walked. It holds
//! tests alone, by public names, so that no crate below is proved again with them.
#![tactic(auto)]

#[cfg(test)]
mod cluster_cases;
#[cfg(test)]
mod drawn_files;
#[cfg(test)]
mod list_of_clusters;
#[cfg(test)]
mod row_cases;

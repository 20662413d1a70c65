/// How many items may commit.
pub const MOST_COMMITS: usize = 4_194_304;

/// How many steps a journal may have.
pub const MOST_STEPS: usize = 8_388_608;

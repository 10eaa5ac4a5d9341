// The limits.

/// Of functions.
pub const MOST_FUNCTIONS: usize = 50000;
/// Of parameters of a function, and of arguments of a call of a foreign one.
pub const MOST_PARAMS: usize = 2000;
/// Of parameters and locals of a function.
pub const MOST_LOCALS: usize = 50000;
/// Of global variables.
pub const MOST_GLOBALS: usize = 100000;
/// Of foreign functions by their name, number of arguments and result.
pub const MOST_FOREIGN_CALLS: usize = 25000;
/// Of members of a table.
pub const MOST_MEMBERS: usize = 65536;
/// Of members of all tables together.
pub const MOST_ENTRIES: usize = 1048576;
/// Of cases of a switch.
pub const MOST_CASES: usize = 1000;
/// Of bytes of the name of a foreign member.
pub const LONGEST_NAME: usize = 100000;

//! `Settings`: what the program is asked to do: replay or serve, with how many lines, rows and connections.
//!
//! `Settings` and `settings` are in two modules: names that differ only in case are refused in one.

/// What the program is asked to do.
#[derive(Clone, Copy, Debug, PartialEq, Eq)]
pub enum Settings {
    /// Answer the lines of standard input on standard output.
    Replay {
        /// The number of lines to take at most, skipped ones counted.
        lines: u32,
        /// The number of different rows at most of a table, and of each node of a plan that is read.
        rows: u32,
    },
    /// Answer the lines of connections, one connection after another.
    Serve {
        /// The port on 127.0.0.1.
        port: u16,
        /// The number of connections to take.
        connections: u32,
        /// The number of lines to take at most of each connection, skipped ones counted.
        lines: u32,
        /// The number of different rows at most of a table, and of each node of a plan that is read.
        rows: u32,
    },
}

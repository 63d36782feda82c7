//! The outside: files that are loaded, and sinks that are written. A program over these two traits
//! is proved for whatever files and sinks do; those in memory also say what they hold, and
//! those of the system only count their failures.
#![tactic(auto)]

pub mod files;
pub mod mem_files;
pub mod mem_sink;
pub mod real;
pub mod sink;

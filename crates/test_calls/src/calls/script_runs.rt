//! Scripts of `arcbench`: rows of them, and readers and writers that fail. `gate/program.sh` tests the built program
//! for the form of lines and for large scripts.

mod failing_io;
mod fakes;
mod runs;
mod worked_rows;

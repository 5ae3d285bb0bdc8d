//! The program `arcbench`, but for its `main`. It is no benchmark: it runs scripts of the counting protocol.
//!
//! `arcbench core OWNERS` runs a script of steps on a counting core, the protocol of a counted block as a machine,
//! with that many owners, 1 to 1000. `arcbench core OWNERS LIMIT` sets the limit of the core's block, the most
//! handles that it may have until it is static, 1 to 4294967295; without `LIMIT` it is the greatest count.
//! `arcbench table SLOTS` runs a script of commands on a table of handles with that many slots, 0 to 1000.
//!
//! The script is read whole from standard input. Each of its lines is answered by a line on standard output. The exit
//! status says how the run ended:
//!
//! - 0: every line was answered.
//! - 1: the arguments are wrong. Nothing is read or printed, and standard error gets `fault: arguments`.
//! - 2: a line is faulty. The lines before it are answered, and then standard output gets `fault: line N`. Lines
//!   count from 1. No later line is run.
//! - 3: the input cannot be read. Nothing is printed, and standard error gets `fault: input`.
//! - 4: the output cannot be written. That is reported nowhere else.
//! - 5: memory that the run itself needs cannot be allocated. Standard error gets `fault: memory`. Whole answers
//!   may have been printed before. Memory that one line needs is no fault: the line is answered `memory` or
//!   `refused`.
//!
//! It runs on tables of any type: no handle is needed to prove it.
#![tactic(auto)]

mod arguments;
mod core_script;
mod fault;
pub mod laws;
mod line;
mod number;
mod output;
mod program;
mod script;
mod split;
mod step_line;
mod table_answer;
mod table_line;
mod table_script;

pub use program::{bench, start};

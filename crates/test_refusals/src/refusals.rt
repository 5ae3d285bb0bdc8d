//! Tests in which one allocation fails: `gate/refused_memory.sh` lets each allocation of a test fail in turn. A test
//! passes whichever it is, and reports its outcome. `outcomes.txt` lists the outcomes, each of which has to occur.

mod builders;
mod clones;
mod counts;
mod list_versions;
mod makers;
mod reporting;
mod stacks;
mod steps;
mod styles;
mod symbols;
mod table_calls;

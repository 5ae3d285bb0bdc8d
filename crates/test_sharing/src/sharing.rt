//! Tests of stacks, maps and sequences, of keys and symbols, and of styles.

mod sequences;
mod stacks;
mod styles;
mod symbols;
mod tree_maps;

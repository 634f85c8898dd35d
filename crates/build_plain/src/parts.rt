//! What is kept of a build.

use file_plan::Trees;
use source_trees::Merges;
use tk_io::TextMap;
use token_cells::Cells;

/// What the tokens of permutations come to, by the names of the permutations.
pub type CellMap<'s> = TextMap<Cells<'s>>;

/// The trees of files by their paths, and what permutations come to by their names: their merged trees, and their tokens.
#[derive(Drop)]
pub struct Parts<'s> {
    pub trees: Trees<'s>,
    pub merges: Merges<'s>,
    pub cells: CellMap<'s>,
}

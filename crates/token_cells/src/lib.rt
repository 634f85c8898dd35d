//! What the tokens of a flat tree come to: the first rule that one of them breaks, or four files that denote their values.
//!
//! A *cell* is what one token comes to: what it gives to each of the four platforms, or the first rule that it breaks. Cells
//! are seen in contracts (`TokenCell`) and kept as two things: the *pages*, which are the four files that all tokens of the
//! tree give, with the names of all tokens one behind another, and for each token a *row*, which says where its lines and
//! names stand in the pages, or which rule it breaks. In a row, `Shown` is what a token shows on one platform: the place of
//! its lines in the file and a *run* of names, from the first to behind the last. The *drafts* are the buffers in which a
//! token's lines and names are made before they are added to the pages; one token after another uses them.
#![tactic(auto)]

mod adding;
mod block;
mod cells;
mod drafts;
mod earlier;
mod evaluated;
mod format;
mod gathering;
mod keeping;
mod laws;
mod moving;
mod names;
mod pages;
mod row;
mod sheet;
mod telling;
mod token_cell;
mod typing;
mod verdict;

pub use cells::{Cells, cells_beside, cells_of, cells_since};
pub use earlier::Earlier;
pub use evaluated::Evaluated;
pub use format::Format;
pub use laws::{
    breaks_are_real, clashes_are_real, each_cell, one_cells, other_sheets_denote, sheets_denote,
    unchanged_cells, unreached_cells, value_row_laws,
};
pub use sheet::sheet_of;
pub use telling::{BreakTexts, break_texts};
pub use token_cell::cell;
pub use verdict::verdict_text;

//! What a table of ballots means: a head of columns, rows whose cells are marks, the ballots that the rows
//! stand for, and the first fault where it is refused.
//!
//! [`read_table`] reads a table as a [`TableAsked`] says: with a column for each candidate, with one for each rank, or with
//! lists.
#![tactic(auto)]

mod among;
mod brackets;
mod cell_stop;
mod column;
mod column_names;
mod columns;
mod edges;
mod empty;
mod fault;
mod field;
mod growing;
mod head;
mod head_records;
mod held;
mod holders;
mod imported;
mod laws;
mod layout;
mod named_head;
mod numbers;
mod numeral;
mod plain_row;
mod reader;
mod record_stop;
mod row;
mod row_cells;
mod rows;
mod said_number;
mod said_ranks;
mod shape;
mod sheet;
mod table_asked;
mod table_kind;
mod table_stop;
mod tally;
mod text;
mod texts;
mod worked;

pub use column::Column;
pub use empty::Empty;
pub use imported::Imported;
pub use laws::{
    fault_or_table, layouts_agree, records_have_no_order, rows_have_no_order,
    tables_are_only_mended,
};
pub use layout::Layout;
pub use numbers::Numbers;
pub use reader::read_table;
pub use table_asked::TableAsked;
pub use table_kind::TableKind;
pub use table_stop::TableStop;
pub use tally::Tally;
pub use text::Text;
pub use texts::Texts;
pub use worked::{worked_chosen, worked_names, worked_reports, worked_tables, worked_texts};

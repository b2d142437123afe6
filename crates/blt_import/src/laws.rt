// What holds of inputs and what is written of them.
ghost use Rattle.blt_import.specs.Laws.{RecordsHaveOneText, TablesHaveOneText};

use ballot_table::{fault_or_table, records_have_no_order};
use blt_writer::one_bag_has_one_text;

/// An input has one text at most as its ballot file, and one as its report.
pub fn tables_have_one_text()
    ensures { TablesHaveOneText }
{
    one_bag_has_one_text();
}

/// Tables of one head with the same records below it, in whatever order these stand, have one ballot file, to the
/// byte.
pub fn records_have_one_text()
    ensures { RecordsHaveOneText }
{
    fault_or_table();
    records_have_no_order();
    one_bag_has_one_text();
}

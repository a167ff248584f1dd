//! Laws of the definitions, each the contract of a function that does nothing.
ghost use Rattle.ds2_csv_records.specs.Laws.{ReadsRecords};

/// The text of rows is read as the rows.
pub fn reads_records()
    ensures { ReadsRecords }
{}

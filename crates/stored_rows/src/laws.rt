//! What is true of stored rows: the contract of a function that does nothing.

ghost use Rattle.stored_rows.specs.Stored.{ValidWithoutBadRow};

/// Tables are valid exactly where no row of them is bad.
pub fn law_of_stored_rows()
    ensures { ValidWithoutBadRow }
{}

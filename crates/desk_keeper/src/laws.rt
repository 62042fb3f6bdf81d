//! What is true of tables: the contract of a function that does nothing.

ghost use Rattle.desk_keeper.specs.Memory.{ValidTablesAreInOrder};

/// Valid tables are in the order of their keys, as those of a keeper in memory are.
pub fn law_of_order()
    ensures { ValidTablesAreInOrder }
{}

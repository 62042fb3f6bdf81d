//! What the places of tables mean, as the contract of a function that does nothing.

ghost use Rattle.net_types.specs.NetValue.{NetValue};
ghost use Rattle.toml_fields.specs.Places.{RowsByPlace};
ghost use Rattle.label_file.specs.Tables.{label_of};

/// The labels of the tables stand in their order, and a refusal names the first table that is no label.
pub fn law_of_tables()
    ensures { (net : NetValue) → RowsByPlace (label_of net) }
{}

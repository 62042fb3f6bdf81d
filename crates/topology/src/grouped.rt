//! The live interfaces of a bundle, with the members of the group of each subnet.

ghost use Rattle.std.specs.Prelude.{◌≡◌, IfOk, OnOk, Some, if◌then◌else◌};
ghost use Rattle.net_types.specs.PrefixValue.{PrefixValue};
ghost use Rattle.net_types.specs.Prefixes.{same_prefix};
ghost use Rattle.topology.specs.ByPrefix.{value_at};
ghost use Rattle.topology.specs.Groups.{kind_at};
ghost use Rattle.topology.specs.Members.{with_member, IsTableOf};

use crate::by_prefix::{ByPrefix, put_at, value_at};
use crate::groups::{Group, Members, kind_of_members, with_member};
use crate::interfaces::Port;
use net_types::Prefix;
use std::alloc::{AllocError, Global};
use std::collections::BTreeMap;
use std::marker::Model;

/// The live interfaces of a bundle. Contracts see the list of them.
#[derive(Drop)]
pub struct GroupedPorts {
    items: Vec<Port>,
    members: ByPrefix<Members>,
}

impl Model for GroupedPorts {
    ghost use Rattle.std.specs.Prelude.{List as Seq};
    ghost use Rattle.topology.specs.declared.interfaces.Port.{Port as PortValue};
    ghost use Rattle.topology.specs.Members.{IsTableOf};

    ghost Value = { Seq PortValue };

    ghost view = { λ p. p.items.items };

    ghost invariant = { λ p. IsTableOf p.items.items p.members };
}

impl GroupedPorts {
    /// These interfaces.
    pub fn of(alloc: Global, items: Vec<Port>) -> Result<GroupedPorts, AllocError>
        ensures { IfOk result (λ ports. ports ≡ items.items) }
    {
        let members = table(alloc, &items)?;
        Ok(GroupedPorts { items, members })
    }

    /// The interfaces.
    pub fn as_slice(&self) -> &[Port]
        ensures { result.now ≡ self.now }
    {
        self.items.as_slice()
    }

    /// What the interfaces in the subnet make.
    pub fn group_at(&self, subnet: &Prefix) -> Group
        ensures { result ≡ kind_at self.now subnet.now }
    {
        kind_of_members(value_at(&self.members, subnet))
    }
}

// Adds an interface to the members of its subnet's group.
fn add(table: &mut ByPrefix<Members>, port: Port) -> Result<(), AllocError>
    ensures { OnOk result ((q : PrefixValue) → value_at table.new q ≡ (if same_prefix port.subnet q then Some (with_member (value_at table.old q) port) else value_at table.old q)) }
{
    let members = with_member(value_at(table, &port.subnet), port);
    put_at(table, &port.subnet, members)
}

// The members of the group of each subnet.
fn table(alloc: Global, ports: &[Port]) -> Result<ByPrefix<Members>, AllocError>
    ensures { IfOk result (λ table. IsTableOf ports.now table) }
{
    let mut table = BTreeMap::new(alloc);
    for port in ports {
        if port.can_link() {
            add(&mut table, *port)?;
        }
    }
    Ok(table)
}

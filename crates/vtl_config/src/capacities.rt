//! The capacities of a cartridge's partitions.
ghost use Rattle.std.specs.Prelude.{◌≡◌, ◌≤◌, true, false, IsTrue, IfOk, IfErr, MatchOption, Some, length, map};
ghost use Rattle.std.specs.List.{list_all};
ghost use Rattle.toml.specs.Data.{array};
ghost use Rattle.toml.specs.View.{view, table_view, items_of};
ghost use Rattle.vtl_base.specs.Limits.{is_capacity};
ghost use Rattle.vtl_config.specs.Values.{value_at, whole, is_integer, is_capacity_value, hold_capacities, Misfits};
ghost use Rattle.vtl_config.specs.Capacities.{AreCapacities};

use crate::keys::Key;
use crate::rules::Rule;
use crate::values::value_at;
use std::marker::Model;
use toml::{Table, Value};
use vtl_base::limits::{MAX_CAPACITY, MAX_PARTITIONS, MIN_CAPACITY};

const PARTITIONS: usize = MAX_PARTITIONS as usize;

/// The capacities of a cartridge's partitions, in bytes: 1 to 4 numbers, each from 4,096 to 1,099,511,627,776 (own). A
/// contract sees them as a list.
#[derive(Clone, Debug, Drop)]
pub struct Capacities {
    bytes: [u64; PARTITIONS],
    count: usize,
}

impl Model for Capacities {
    ghost use Rattle.std.specs.Prelude.{ℕ, List, take, ◌≤◌};
    ghost use Rattle.vtl_config.specs.Capacities.{AreCapacities};
    ghost use Rattle.vtl_config.specs.declared.capacities.TheConstants.{PARTITIONS};

    ghost Value = { List ℕ };

    ghost view = { λ c. take c.count c.bytes };

    ghost invariant = { λ c. (c.count ≤ PARTITIONS) × AreCapacities (take c.count c.bytes) };
}

impl Capacities {
    /// The capacities in bytes, in the order of the partitions.
    pub fn as_slice(&self) -> &[u64]
        ensures value { result.now ≡ self.now }
        ensures valid { AreCapacities self.now }
    {
        &self.bytes[..self.count]
    }
}

fn are_integers(items: &[Value]) -> bool
    ensures { result ≡ list_all (λ item. is_integer (view item)) items.now }
{
    items.iter().all(|item| item.is_integer())
}

fn capacity_of(item: &Value) -> Option<u64>
    ensures { MatchOption result (is_capacity_value (view item.now) ≡ false)
        (λ bytes. (view item.now ≡ whole bytes) × (is_capacity bytes ≡ true)) }
{
    let bytes = u64::try_from(item.as_integer()?).ok()?;
    if bytes >= MIN_CAPACITY && bytes <= MAX_CAPACITY {
        Some(bytes)
    } else {
        None
    }
}

fn capacities_of(items: &[Value]) -> Option<Capacities>
    ensures { MatchOption result (hold_capacities (items_of (map view items.now)) ≡ false)
        (λ found. map view items.now ≡ map whole found) }
{
    if items.is_empty() || items.len() > PARTITIONS {
        return None;
    }
    let mut bytes = [MIN_CAPACITY; PARTITIONS];
    for (place, item) in items.iter().enumerate() {
        bytes[place] = capacity_of(item)?;
    }
    Some(Capacities {
        bytes,
        count: items.len(),
    })
}

// The capacities of a cartridge, or the rule that their key or its value breaks.
pub(crate) fn capacities_at(table: &Table) -> Result<Capacities, Rule>
    ensures ok { IfOk result (λ found.
        value_at Key.Capacities (table_view table.now) ≡ Some (array (items_of (map whole found)))) }
    ensures range { IfOk result AreCapacities }
    ensures err { IfErr result (Misfits Key.Capacities (value_at Key.Capacities (table_view table.now))) }
{
    match value_at(table, Key::Capacities) {
        Some(value) => match value.as_array() {
            Some(items) => {
                if !are_integers(items.as_slice()) {
                    return Err(Rule::OtherKind(Key::Capacities));
                }
                match capacities_of(items.as_slice()) {
                    Some(found) => Ok(found),
                    None => Err(Rule::OutOfRange(Key::Capacities)),
                }
            }
            None => Err(Rule::OtherKind(Key::Capacities)),
        },
        None => Err(Rule::Missing(Key::Capacities)),
    }
}

//! Those of some places in a list of partitions that lie above none of the others.

ghost use Rattle.std.specs.Prelude.{◌<◌, ◌↔◌, length, OnOk, IsTrue};
ghost use Rattle.std.specs.List.{AllByRecursion};
ghost use Rattle.std.specs.List.Sorted.{IsStrictlyIncreasing};
ghost use Rattle.ua_lattice.specs.inner.Places.{AreOrdered, LiesAboveOne, AreLeast};

use std::alloc::AllocError;
use ua_part::Part;

/// Whether the partition at a place lies above one of those at some places.
fn lies_above_one(list: &[Part], places: &[u32], place: u32) -> bool
    requires list { AreOrdered list.now }
    requires within { AllByRecursion (λ j. j < length list.now) places.now }
    requires place { place < length list.now }
    ensures { IsTrue result ↔ LiesAboveOne list.now places.now place }
{
    for k in 0..places.len() {
        if list[places[k] as usize].le(&list[place as usize]) {
            return true;
        }
    }
    false
}

/// Those of the places, ascending, whose partitions lie above none of the others.
pub fn keep_least(list: &[Part], places: &[u32], least: &mut Vec<u32>) -> Result<(), AllocError>
    requires list { AreOrdered list.now }
    requires in_order { IsStrictlyIncreasing places.now }
    requires within { AllByRecursion (λ j. j < length list.now) places.now }
    ensures { OnOk result (AreLeast list.now places.now least.new.items) }
{
    least.clear();
    for k in 0..places.len() {
        if !lies_above_one(list, least.as_slice(), places[k]) {
            least.push(places[k])?;
        }
    }
    Ok(())
}

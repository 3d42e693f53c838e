//! Lists of faults: adding to them and sorting them.
ghost use Rattle.std.specs.Prelude.{◌≡◌, true, Any, Contains, IsTrue, OnOk};
ghost use Rattle.std.specs.List.Sorted.{IsStrictlySortedBy};
ghost use Rattle.types_declared.specs.contracts.fault.FaultOrd.TheImpl as order;
ghost use Rattle.types_declared.specs.Listing.{AddsFaults, HaveSameFaults};

use crate::fault::Fault;
use std::alloc::AllocError;

/// Appends a fault.
pub fn push(found: &mut Vec<Fault>, fault: Fault) -> Result<(), AllocError>
    ensures { OnOk result (AddsFaults found.old.items found.new.items (λ f. f ≡ fault)) }
{
    found.push(fault)?;
    Ok(())
}

/// Appends a fault if `test` is true.
pub fn push_if(found: &mut Vec<Fault>, test: bool, fault: Fault) -> Result<(), AllocError>
    ensures { OnOk result (AddsFaults found.old.items found.new.items (λ f. IsTrue test × (f ≡ fault))) }
{
    if test {
        return push(found, fault);
    }
    Ok(())
}

/// Sorts values and drops repetitions.
fn sort_strictly<T: Ord + Drop>(values: &mut Vec<T>)
    ensures keeps { (x : T) → Contains values.old.items x → Any (λ y. T.eq x y ≡ true) values.new.items }
    ensures only { (x : T) → Contains values.new.items x → Contains values.old.items x }
    ensures order { IsStrictlySortedBy T.cmp values.new.items }
{
    values.sort_unstable();
    values.dedup();
}

/// Sorts faults by file, token and kind, and drops repetitions.
pub fn sort(found: &mut Vec<Fault>)
    ensures same { HaveSameFaults found.old.items found.new.items }
    ensures order { IsStrictlySortedBy order.ghosts.cmp found.new.items }
{
    sort_strictly(found);
}

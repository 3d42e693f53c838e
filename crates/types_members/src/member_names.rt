//! Sets of names, one for each type definition.
ghost use Rattle.std.specs.Prelude.{◌≡◌, ◌<◌, ℕ, List, false, not, length, IfOk, OnOk};
ghost use Rattle.types_members.specs.MemberNames.{has_name, is_noted, SetsName, AddsMemberName};

use std::alloc::{AllocError, Global};
use std::collections::BTreeSet;

/// A set of borrowed names for each definition, by rank.
#[derive(Drop)]
pub(crate) struct MemberNames<'a> {
    rows: Vec<BTreeSet<&'a [u8]>>,
}

/// Adds a name to a set; returns whether it is new.
fn add_name<'a>(row: &mut BTreeSet<&'a [u8]>, name: &'a [u8]) -> Result<bool, AllocError>
    ensures added { IfOk result (λ added. added ≡ not (has_name row.old name.now)) }
    ensures set { OnOk result (SetsName (has_name row.old) (has_name row.new) name.now) }
{
    let added = row.insert(name)?;
    Ok(added)
}

impl<'a> MemberNames<'a> {
    /// An empty set for each definition.
    pub(crate) fn new(alloc: Global) -> MemberNames<'a>
        ensures { (definition : ℕ) (name : List ℕ) → is_noted result definition name ≡ false }
    {
        MemberNames {
            rows: Vec::new(alloc),
        }
    }

    /// Whether a name is in the set of a definition.
    pub(crate) fn has(&self, definition: usize, name: &[u8]) -> bool
        ensures { result ≡ is_noted self.now definition name.now }
    {
        match self.rows.get(definition) {
            None => false,
            Some(row) => row.contains(name),
        }
    }

    /// Adds empty rows up to a definition's.
    fn reach(&mut self, alloc: Global, definition: usize) -> Result<(), AllocError>
        ensures kept { OnOk result ((d : ℕ) (n : List ℕ) → is_noted self.new d n ≡ is_noted self.old d n) }
        ensures reached { OnOk result (definition < length self.new.rows.items) }
    {
        while self.rows.len() <= definition {
            self.rows.push(BTreeSet::new(alloc))?;
        }
        Ok(())
    }

    /// Adds a name to the set of a definition; returns whether it is new there.
    pub(crate) fn note(
        &mut self,
        alloc: Global,
        definition: usize,
        name: &'a [u8],
    ) -> Result<bool, AllocError>
        ensures added { IfOk result (λ added. added ≡ not (is_noted self.old definition name.now)) }
        ensures noted { OnOk result (AddsMemberName (is_noted self.old) (is_noted self.new) definition name.now) }
    {
        self.reach(alloc, definition)?;
        add_name(&mut self.rows[definition], name)
    }
}

// What a survey has met so far.
ghost use Rattle.std.specs.Prelude.{◌≡◌, IfOk};

use crate::findings::{Findings, Owner};
use crate::spot::Spot;
use minix_zones::Visit;
use std::alloc::{AllocError, Global};
use std::collections::{HashMap, HashSet};

/// What was met.
#[derive(Drop)]
pub(crate) struct Tables {
    found: Findings,
    reached: HashSet<u32>,
    // The names that are in each directory.
    entries: HashSet<(u32, Vec<u8>)>,
}

/// The key of a name in a directory.
fn key(alloc: Global, directory: u32, name: &[u8]) -> Result<(u32, Vec<u8>), AllocError>
    ensures directory { IfOk result (λ key. key.0 ≡ directory) }
    ensures name { IfOk result (λ key. key.1.items ≡ name.now) }
{
    let mut bytes = Vec::new(alloc);
    bytes.extend_from_slice(name)?;
    Ok((directory, bytes))
}

impl Tables {
    ghost use Rattle.std.specs.Prelude.{◌≡◌, [], ◌∷◌, List, not, Ok, IfOk, IfNone, OnOk};
    ghost use Rattle.std.specs.Bool.{OnTrue};
    ghost use Rattle.lilo_model.specs.MinixSurvey.{Met, Reaches, Refers};
    ghost use Rattle.minix_zones.specs.Walk.{visit_view};
    ghost use Rattle.minix_survey.specs.View.{spot_view};
    ghost use Rattle.minix_survey.specs.Findings.{owner_in, names_in};
    ghost use Rattle.minix_survey.specs.Tables.{Tells, Enters, Renames, reached_in, entry_in};

    /// Nothing was met.
    pub(crate) fn new(alloc: Global) -> Tables
        ensures { Tells result [] }
    {
        Tables {
            found: Findings {
                owners: HashMap::new(alloc),
                names: HashMap::new(alloc),
            },
            reached: HashSet::new(alloc),
            entries: HashSet::new(alloc),
        }
    }

    /// What was found.
    pub(crate) fn found(self) -> Findings
        ensures { result ≡ self.found }
    {
        let Tables {
            found,
            reached: _,
            entries: _,
        } = self;
        found
    }

    /// Whether an inode was reached.
    pub(crate) fn has_reached(&self, inode: u32) -> bool
        ensures { result ≡ reached_in self.now inode }
    {
        self.reached.contains(&inode)
    }

    /// An inode is reached.
    pub(crate) fn reach(&mut self, spot: Spot) -> Result<(), AllocError>
        ensures { OnOk result ((met : List Met) → Tells self.old met
            → Tells self.new (Reaches (spot_view spot) ∷ met)) }
    {
        self.reached.insert(spot.inode)?;
        Ok(())
    }

    /// An inode refers to a zone. The answer is the inode that referred to it before.
    pub(crate) fn refer(&mut self, inode: u32, visit: Visit) -> Result<Option<u32>, AllocError>
        ensures first { IfOk result (λ first. first ≡ owner_in self.old.found visit.zone) }
        ensures tells { IfOk result (λ first. IfNone first ((met : List Met) → Tells self.old met
            → Tells self.new (Refers inode (Ok (visit_view visit)) ∷ met))) }
    {
        let owner = Owner {
            inode,
            indirect: visit.indirect,
        };
        match self.found.owners.insert(visit.zone, owner)? {
            Some(first) => Ok(Some(first.inode)),
            None => Ok(None),
        }
    }

    /// Whether a name is in a directory.
    pub(crate) fn has_entry(
        &self,
        alloc: Global,
        directory: u32,
        name: &[u8],
    ) -> Result<bool, AllocError>
        ensures { IfOk result (λ has. has ≡ entry_in self.now directory name.now) }
    {
        let key = key(alloc, directory, name)?;
        Ok(self.entries.contains(&key))
    }

    /// A name is in a directory. The answer is whether it is the first of that name there.
    pub(crate) fn stand(
        &mut self,
        alloc: Global,
        directory: u32,
        name: &[u8],
    ) -> Result<bool, AllocError>
        ensures added { IfOk result (λ added. added ≡ not (entry_in self.old directory name.now)) }
        ensures enters { IfOk result (λ added. OnTrue added (Enters self.old self.new directory name.now)) }
    {
        let key = key(alloc, directory, name)?;
        Ok(self.entries.insert(key)?)
    }

    /// How many names an inode has.
    pub(crate) fn names(&self, inode: u32) -> u32
        ensures { result ≡ names_in self.now.found inode }
    {
        self.found.names(inode)
    }

    /// An inode has so many names.
    pub(crate) fn set_names(&mut self, inode: u32, count: u32) -> Result<(), AllocError>
        ensures { OnOk result (Renames self.old self.new inode count) }
    {
        self.found.names.insert(inode, count)?;
        Ok(())
    }
}

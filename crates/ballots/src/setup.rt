//! What a member is told when it is set up.

ghost use Rattle.std.specs.Prelude.{◌≡◌, ◌≤◌, ◌↔◌, IfOk, IsErrOf, map, string_bytes};
ghost use Rattle.ballots.specs.Terms.{IsPlace};

use super::ballot::Members;
use document_names::Names;
use std::alloc::Global;
use std::marker::Model;

/// Why there is no setup.
#[derive(Clone, Copy, PartialEq, Eq, Debug)]
pub enum SetupFault {
    /// Memory was refused (1).
    Memory,
    /// There are not 1 to 63 members, or the member is none of them (2).
    Numbers,
}

/// A member's place among the members, and the names of the documents. All members of a group are set up with one number of members
/// and one list of names.
#[derive(Drop)]
pub struct Setup {
    group: u32,
    member: u8,
    members: Members,
    names: Names,
}

impl Model for Setup {
    ghost use Rattle.ballots.specs.Terms.{Setup as SetupTerm, setup_code, IsPlace};

    ghost Value = { SetupTerm };

    ghost coded = { setup_code };

    ghost view = { λ a.
        record {
          group = a.group;
          member = a.member;
          members = a.members;
          names = a.names;
        } };

    ghost invariant = { λ a. IsPlace a.member a.members };
}

impl Setup {
    /// The setup of that member of so many, with a copy of the names.
    ///
    /// It is refused where there are not 1 to 63 members or the member is none of them (`Numbers`), or memory is refused (`Memory`).
    pub fn new(
        alloc: Global,
        group: u32,
        member: u8,
        members: u8,
        names: &Names,
    ) -> Result<Setup, SetupFault>
        ensures made { IfOk result
            (λ s. s ≡ record { group = group; member = member; members = members; names = names.now }) }
        ensures numbers { IsErrOf result SetupFault.Numbers ↔ ¬ IsPlace member members }
    {
        let Some(count) = Members::new(members) else {
            return Err(SetupFault::Numbers);
        };
        if member == 0 || member > members {
            return Err(SetupFault::Numbers);
        }
        match Names::new(alloc, names.as_slice()) {
            Ok(names) => Ok(Setup {
                group,
                member,
                members: count,
                names,
            }),
            Err(_) => Err(SetupFault::Memory),
        }
    }

    /// The group's number: members answer to their own group alone.
    pub fn group(&self) -> u32
        ensures { result ≡ self.now.group }
    {
        self.group
    }

    /// The member's number, from 1.
    pub fn member(&self) -> u8
        ensures member { result ≡ self.now.member }
        ensures place { IsPlace self.now.member self.now.members }
    {
        self.member
    }

    /// How many members there are.
    pub fn members(&self) -> Members
        ensures { result ≡ self.now.members }
    {
        self.members
    }

    /// The names of the documents.
    pub fn names(&self) -> &Names
        ensures { result.now ≡ self.now.names }
    {
        &self.names
    }
}

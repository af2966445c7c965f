// The functions of this file carry the laws of parties and entries: each law is a contract.
ghost use Rattle.interface.specs.Entries.{KeepsUpToSeven};
ghost use Rattle.interface.specs.Equality.{LibrariesStayEqual, PoliciesStayEqual};

use crate::parties::{Library, Policy};

// Equal libraries answer every list of calls alike and are equal afterwards.
pub fn equal_libraries_stand<L: Library>()
    ensures { LibrariesStayEqual L.Library.State }
{}

// Equal policies answer every list of questions alike and are equal afterwards.
pub fn equal_policies_stand<P: Policy>()
    ensures { PoliciesStayEqual P.Policy.State }
{}

// Up to seven values can be read back from an entry.
pub fn seven_values_stand()
    ensures { KeepsUpToSeven }
{}

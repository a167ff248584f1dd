//! Locations that are looked for are compared by home, sort and name, and hashed by home and name.
ghost use Rattle.std.specs.Prelude.{◌≡◌};
ghost use Rattle.std.specs.List.{fold};
ghost use Rattle.std.specs.Cmp.{partial_equiv_from_equiv};
ghost use Rattle.ds2_numbering.specs.SoughtLocations.{home_of_name};
ghost use Rattle.ds2_numbering.specs.SoughtKeys.{home_writes, is_one_sought, sought_alike, sought_equiv, sought_writes};

use crate::sought::{HomeName, Sought, is_one_home, is_one_sort};
use std::hash::{Hash, Hasher};

impl<'a> PartialEq for Sought<'a> {
    ghost eq = { is_one_sought };

    ghost laws = { partial_equiv_from_equiv sought_equiv };

    #[tactic(auto, using(crate::specs::SoughtKeys::by_parts))]
    fn eq(&self, other: &Self) -> bool {
        is_one_home(self.home, other.home)
            && is_one_sort(self.sort, other.sort)
            && self.name == other.name
    }
}

impl<'a> Eq for Sought<'a> {
    ghost laws = { sought_equiv };
}

// Hashes the instance whose global it is, where it is one of an instance.
fn hash_home<H: Hasher>(home: HomeName<'_>, state: &mut H)
    ensures { state.new ≡ fold H.write state.old (home_writes (home_of_name home.entry)) }
{
    match home {
        HomeName::Own => {}
        HomeName::Instance(name) => name.hash(state),
    }
}

impl<'a> Hash for Sought<'a> {
    ghost hash_input = { sought_writes };

    ghost respects_eq = { sought_alike };

    fn hash<H: Hasher>(&self, state: &mut H) {
        self.name.hash(state);
        hash_home(self.home, state);
    }
}

//! How many arguments functions and methods take.
ghost use Rattle.std.specs.Prelude.{◌≡◌, option_copied};
ghost use Rattle.ds2_names.specs.NameRules.{takes_count};
ghost use Rattle.ds2_calls.specs.SortCalls.{counts_by};

use ds2_names::{Counts, function_named, takes_so_many};

/// The numbers of arguments that what a name calls takes: a method with so many parameters, else a function.
pub fn counts_of(parameters: Option<&[bool]>, name: &[u8]) -> Option<Counts>
    ensures { result ≡ counts_by (option_copied parameters.entry) name.now }
{
    match parameters {
        Some(parameters) => Some((parameters.len(), parameters.len())),
        None => match function_named(name) {
            Some(row) => Some(row.counts),
            None => None,
        },
    }
}

/// Whether so many arguments are taken; what is not there takes any.
pub fn takes_count(counts: Option<Counts>, n: usize) -> bool
    ensures { result ≡ takes_count counts n }
{
    match counts {
        None => true,
        Some(counts) => takes_so_many(counts, n),
    }
}

//! The count of tokens: all those of the source, and those of its package once more for each instance.
ghost use Rattle.std.specs.Prelude.{◌≡◌, ◌+◌, IfOk, List as Items, nat_le};
ghost use Rattle.ds2_names.specs.SourceLimits.{tokens_of_sort, tokens_behind, beyond_tokens};
ghost use Rattle.ds2_names.specs.SourceUnit.{KnownUnit};
ghost use Rattle.ds2_scope.specs.CodeUnits.{instance_sort, instances_in_source};
ghost use Rattle.ds2_scope.specs.Earliest.{earliest};
ghost use Rattle.ds2_scope.specs.UnitsKnown.{KnowsUnits};

use ds2_base::{OutOfMemory, Place};
use ds2_scope::{Instance, InstanceSort, KnownUnits, earlier_of, place_unless, spelled_name};
use std::alloc::Global;

/// The count of tokens behind instances, and the earliest of these behind which it is above 1,000,000.
#[derive(Clone, Copy)]
pub(crate) struct TokenCount {
    pub behind: usize,
    pub beyond: Option<Place>,
}

// A count with further tokens, where there is a number for it.
fn with_tokens(count: usize, tokens: usize) -> Result<usize, OutOfMemory>
    ensures { IfOk result (λ behind. behind ≡ count + tokens) }
{
    match count.checked_add(tokens) {
        None => Err(OutOfMemory),
        Some(behind) => Ok(behind),
    }
}

// The tokens of the package that an instance is one of.
fn tokens_of_sort(
    alloc: Global,
    known: &KnownUnits,
    sort: InstanceSort<'_>,
) -> Result<usize, OutOfMemory>
    ensures { IfOk result (λ tokens. (units : Items KnownUnit) → KnowsUnits known.now units → tokens ≡ tokens_of_sort units (instance_sort sort.entry)) }
{
    match sort {
        InstanceSort::Package { package, .. } => {
            let name = spelled_name(alloc, package)?;
            Ok(known.tokens_of(&name))
        }
        InstanceSort::Hash { .. } => Ok(0),
        InstanceSort::Iterator(_) => Ok(0),
        InstanceSort::Thread(_) => Ok(0),
    }
}

/// The count of tokens behind these instances, from so many before them. Answers want of memory, too, where it has no number.
pub(crate) fn count_tokens(
    alloc: Global,
    known: &KnownUnits,
    count: usize,
    instances: &[Instance<'_>],
) -> Result<TokenCount, OutOfMemory>
    ensures behind { IfOk result (λ c. (units : Items KnownUnit) → KnowsUnits known.now units → c.behind ≡ tokens_behind units count (instances_in_source instances.now)) }
    ensures beyond { IfOk result (λ c. (units : Items KnownUnit) → KnowsUnits known.now units → c.beyond ≡ earliest (beyond_tokens 1000000 units count (instances_in_source instances.now))) }
{
    let mut behind = count;
    let mut beyond: Option<Place> = None;
    'instances: for instance in instances {
        let tokens = tokens_of_sort(alloc, known, instance.sort)?;
        let more = with_tokens(behind, tokens)?;
        beyond = earlier_of(beyond, place_unless(more <= 1_000_000, instance.name.place));
        behind = more;
    }
    Ok(TokenCount { behind, beyond })
}

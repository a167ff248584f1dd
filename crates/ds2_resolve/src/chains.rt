//! How many thread programs stand in a chain.
ghost use Rattle.std.specs.Prelude.{◌≡◌, IfOk, List as Items, max};
ghost use Rattle.ds2_names.specs.SourceLimits.{chain_of_sort, chain_length};
ghost use Rattle.ds2_names.specs.SourceUnit.{KnownUnit};
ghost use Rattle.ds2_scope.specs.CodeUnits.{source_instance, instances_in_source};
ghost use Rattle.ds2_scope.specs.UnitsKnown.{KnowsUnits};

use ds2_base::OutOfMemory;
use ds2_scope::{Instance, KnownUnits, one_more, thread_of};
use std::alloc::Global;

// How many thread programs the longest chain has that an instance brings.
fn chain_of(alloc: Global, known: &KnownUnits, instance: &Instance<'_>) -> Result<u32, OutOfMemory>
    ensures { IfOk result (λ chain. (units : Items KnownUnit) → KnowsUnits known.now units → chain ≡ chain_of_sort units (source_instance instance.now).sort) }
{
    match thread_of(alloc, known, instance)? {
        None => Ok(0),
        Some(thread) => Ok(thread.chain),
    }
}

// The greater of two numbers.
fn greater(a: u32, b: u32) -> u32
    ensures { result ≡ max a b }
{
    if a < b { b } else { a }
}

/// How many thread programs the longest chain has that a thread program with these instances is the end of. Answers want of memory, too, beyond
/// 2^32 - 1.
pub(crate) fn chain_length(
    alloc: Global,
    known: &KnownUnits,
    instances: &[Instance<'_>],
) -> Result<u32, OutOfMemory>
    ensures { IfOk result (λ chain. (units : Items KnownUnit) → KnowsUnits known.now units → chain ≡ chain_length units (instances_in_source instances.now)) }
{
    let mut longest: u32 = 1;
    'instances: for instance in instances {
        let chain = chain_of(alloc, known, instance)?;
        let more = one_more(chain)?;
        longest = greater(longest, more);
    }
    Ok(longest)
}

//! The numbers of hash objects, iterators and parameters.
ghost use Rattle.std.specs.Prelude.{◌≡◌, [], IfOk, map, flat_map, bytes_eq};
ghost use Rattle.ds2_meaning.specs.View.{instance_tree, objects_tree, reading_with_run};
ghost use Rattle.ds2_meaning.specs.declared.globals.Variable.{Variable as VariableModel};
ghost use Rattle.ds2_meaning.specs.Reading.{stage_instance};
ghost use Rattle.ds2_program_code.specs.PlacedProgram.{number_of_location, hashes_at, iterators_at, hash_locations, iterator_locations, parameter_locations};
ghost use Rattle.ds2_numbering.specs.SoughtLocations.{home_of_name, location_sought, stage_parameter_at};
ghost use Rattle.ds2_numbering.specs.Searching.{search_among};
ghost use Rattle.ds2_numbering.specs.CellNumbers.{instance_hashes, instance_iterators, read_parameters, tree_of};

use crate::search::Search;
use crate::sought::{HomeName, Sought};
use ds2_base::{Name, OutOfMemory};
use ds2_meaning::{
    DeclaredHash, DeclaredIterator, Instance, Program, Reading, ThreadInstance, Variable,
};

// Looks at the hash objects of a home.
fn search_hashes(
    begun: Search,
    sought: &Sought<'_>,
    home: HomeName<'_>,
    hashes: &[DeclaredHash],
) -> Result<Search, OutOfMemory>
    ensures { IfOk result (λ s. s ≡ search_among (location_sought sought.now) (hashes_at (home_of_name home.entry) (objects_tree hashes.now [])) begun) }
{
    let mut search = begun;
    'hashes: for hash in hashes {
        search = search.on(sought.is_object(home, &hash.name))?;
    }
    Ok(search)
}

// Looks at the hash objects of instances.
#[tactic(auto, using(crate::proofs::SearchLemmas::search_both))]
fn search_instance_hashes(
    begun: Search,
    sought: &Sought<'_>,
    instances: &[Instance],
) -> Result<Search, OutOfMemory>
    ensures { IfOk result (λ s. s ≡ search_among (location_sought sought.now) (flat_map instance_hashes (map instance_tree instances.now)) begun) }
{
    let mut search = begun;
    'instances: for instance in instances {
        let hashes = instance.package.get().hashes.as_slice();
        search = search_hashes(search, sought, HomeName::Instance(&instance.name), hashes)?;
    }
    Ok(search)
}

/// The number of the first hash object of a location, of those of a program and of its instances.
pub fn find_hash(program: &Program, sought: &Sought<'_>) -> Result<Option<u32>, OutOfMemory>
    ensures { IfOk result (λ n. n ≡ number_of_location (hash_locations (tree_of program.now)) (location_sought sought.now)) }
{
    let own = search_hashes(
        Search::new(),
        sought,
        HomeName::Own,
        program.hashes.as_slice(),
    )?;
    let search = search_instance_hashes(own, sought, program.instances.as_slice())?;
    Ok(search.found)
}

// Looks at the iterators of a home.
fn search_iterators(
    begun: Search,
    sought: &Sought<'_>,
    home: HomeName<'_>,
    iterators: &[DeclaredIterator],
) -> Result<Search, OutOfMemory>
    ensures { IfOk result (λ s. s ≡ search_among (location_sought sought.now) (iterators_at (home_of_name home.entry) (objects_tree [] iterators.now)) begun) }
{
    let mut search = begun;
    'iterators: for iterator in iterators {
        search = search.on(sought.is_object(home, &iterator.name))?;
    }
    Ok(search)
}

// Looks at the iterators of instances.
#[tactic(auto, using(crate::proofs::SearchLemmas::search_both))]
fn search_instance_iterators(
    begun: Search,
    sought: &Sought<'_>,
    instances: &[Instance],
) -> Result<Search, OutOfMemory>
    ensures { IfOk result (λ s. s ≡ search_among (location_sought sought.now) (flat_map instance_iterators (map instance_tree instances.now)) begun) }
{
    let mut search = begun;
    'instances: for instance in instances {
        let iterators = instance.package.get().iterators.as_slice();
        search = search_iterators(
            search,
            sought,
            HomeName::Instance(&instance.name),
            iterators,
        )?;
    }
    Ok(search)
}

/// The number of the first iterator of a location, of those of a program and of its instances.
pub fn find_iterator(program: &Program, sought: &Sought<'_>) -> Result<Option<u32>, OutOfMemory>
    ensures { IfOk result (λ n. n ≡ number_of_location (iterator_locations (tree_of program.now)) (location_sought sought.now)) }
{
    let own = search_iterators(
        Search::new(),
        sought,
        HomeName::Own,
        program.iterators.as_slice(),
    )?;
    let search = search_instance_iterators(own, sought, program.instances.as_slice())?;
    Ok(search.found)
}

// Looks at the parameters of an instance of a thread program.
fn search_parameters(
    begun: Search,
    sought: &Sought<'_>,
    instance: &Name,
    parameters: &[Variable],
) -> Result<Search, OutOfMemory>
    ensures { IfOk result (λ s. s ≡ search_among (location_sought sought.now) (map (λ (v : VariableModel). stage_parameter_at instance.now v.name) parameters.now) begun) }
{
    let mut search = begun;
    'parameters: for parameter in parameters {
        search = search.on(sought.is_parameter(instance, &parameter.name))?;
    }
    Ok(search)
}

// Whether a program with this reading reads from the instance of a thread program.
#[tactic(auto, using(crate::proofs::SearchLemmas::empty_name))]
fn is_read(reading: &Reading, thread: &ThreadInstance) -> bool
    ensures { result ≡ bytes_eq thread.now.name (stage_instance reading.now) }
{
    match reading {
        Reading::Nothing => thread.name.as_str().is_empty(),
        Reading::Once => thread.name.as_str().is_empty(),
        Reading::Set { inputs: _, bys: _ } => thread.name.as_str().is_empty(),
        Reading::Merge {
            inputs: _,
            bys: _,
            retains: _,
        } => thread.name.as_str().is_empty(),
        Reading::From {
            instance,
            workers: _,
            columns: _,
        } => thread.name == *instance,
    }
}

// Whether a program reads from the instance of a thread program.
#[tactic(auto, using(crate::proofs::SearchLemmas::read_with_run, crate::proofs::SearchLemmas::empty_name))]
fn is_read_from(program: &Program, thread: &ThreadInstance) -> bool
    ensures { result ≡ bytes_eq thread.now.name (stage_instance (reading_with_run program.now.run program.now.reading)) }
{
    match &program.run {
        None => thread.name.as_str().is_empty(),
        Some(_) => is_read(&program.reading, thread),
    }
}

// Looks at the parameters of an instance of a thread program, where the program reads from it.
fn search_thread(
    begun: Search,
    sought: &Sought<'_>,
    program: &Program,
    thread: &ThreadInstance,
) -> Result<Search, OutOfMemory>
    ensures { IfOk result (λ s. s ≡ search_among (location_sought sought.now) (read_parameters (stage_instance (reading_with_run program.now.run program.now.reading)) thread.now) begun) }
{
    if is_read_from(program, thread) {
        let parameters = thread.parameters.as_slice();
        search_parameters(begun, sought, &thread.name, parameters)
    } else {
        Ok(begun)
    }
}

/// The number of the first parameter of a location, of those of the thread program that a program reads from.
pub fn find_parameter(program: &Program, sought: &Sought<'_>) -> Result<Option<u32>, OutOfMemory>
    ensures { IfOk result (λ n. n ≡ number_of_location (parameter_locations (tree_of program.now)) (location_sought sought.now)) }
{
    let threads = program.threads.as_slice();
    let mut search = Search::new();
    'threads: for thread in threads {
        search = search_thread(search, sought, program, thread)?;
    }
    Ok(search.found)
}

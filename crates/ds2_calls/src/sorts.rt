//! What calls on instances take.
ghost use Rattle.std.specs.Prelude.{◌≡◌, if◌then◌else◌, is_some, option_copied, Some, None};
ghost use Rattle.ds2_meaning.specs.ProgramTree.{is_listed};
ghost use Rattle.ds2_names.specs.NameRules.{hash_calls, iterator_calls, parameters_where};
ghost use Rattle.ds2_calls.specs.KnownUnits.{units_in_tables};
ghost use Rattle.ds2_calls.specs.SortCalls.{parameters_under, counts_of_parameters, is_known_by, is_known_stage, counts_on_sort};

use crate::instances::Sort;
use crate::known_calls::KnownCalls;
use crate::methods::parameters_of;
use ds2_base::Bytes;
use ds2_names::Counts;

// Whether hash objects have this method.
#[tactic(auto, using(crate::proofs::SortLemmas::or_false))]
fn is_hash_call(name: &[u8]) -> bool
    ensures { result ≡ is_listed hash_calls name.now }
{
    b"find".as_slice() == name
        || b"check".as_slice() == name
        || b"add".as_slice() == name
        || b"replace".as_slice() == name
        || b"remove".as_slice() == name
        || b"clear".as_slice() == name
        || b"num_items".as_slice() == name
}

// Whether iterators have this method.
#[tactic(auto, using(crate::proofs::SortLemmas::or_false))]
fn is_iterator_call(name: &[u8]) -> bool
    ensures { result ≡ is_listed iterator_calls name.now }
{
    b"first".as_slice() == name
        || b"next".as_slice() == name
        || b"prev".as_slice() == name
        || b"last".as_slice() == name
}

// No arguments, where there is such a method.
fn none_if(is_call: bool) -> Option<Counts>
    ensures { result ≡ (if is_call then Some (0, 0) else None) }
{
    if is_call { Some((0, 0)) } else { None }
}

// As many arguments as parameters.
fn as_many(parameters: Option<&[bool]>) -> Option<Counts>
    ensures { result ≡ counts_of_parameters (option_copied parameters.entry) }
{
    match parameters {
        None => None,
        Some(parameters) => Some((parameters.len(), parameters.len())),
    }
}

// So many arguments, where the method is `setparms`.
fn as_many_where(count: usize, name: &[u8]) -> Option<Counts>
    ensures { result ≡ parameters_where count name.now }
{
    if name == b"setparms".as_slice() {
        Some((count, count))
    } else {
        None
    }
}

impl KnownCalls {
    /// For each parameter of a method of a package, by the package's name and its own, whether it is in_out; None where there is no such
    /// package or method.
    pub fn parameters_under(&self, name: &Bytes, method: &Bytes) -> Option<&[bool]>
        ensures { option_copied result ≡ parameters_under ((units_in_tables self.now).methods_of_package name.now) method.now }
    {
        match self.packages.get(name) {
            None => None,
            Some(methods) => parameters_of(methods, method),
        }
    }

    /// How many parameters the thread program of a name has, where there is one.
    pub fn parameters_of_thread(&self, name: &Bytes) -> Option<usize>
        ensures { result ≡ (units_in_tables self.now).parameters_of_thread name.now }
    {
        self.threads.get(name).copied()
    }

    /// Whether there is a package of this name.
    pub fn has_package(&self, name: &Bytes) -> bool
        ensures { result ≡ is_some ((units_in_tables self.now).methods_of_package name.now) }
    {
        match self.packages.get(name) {
            None => false,
            Some(_) => true,
        }
    }

    /// Whether there is a thread program of this name.
    pub fn has_thread(&self, name: &Bytes) -> bool
        ensures { result ≡ is_some ((units_in_tables self.now).parameters_of_thread name.now) }
    {
        self.parameters_of_thread(name).is_some()
    }
}

/// Whether what an instance is one of is known: its package or thread program, or it is a hash object or an iterator.
pub fn is_known_sort(known: &KnownCalls, sort: &Sort) -> bool
    ensures { result ≡ is_known_by (units_in_tables known.now) sort.now }
{
    match sort {
        Sort::Package(name) => known.has_package(name),
        Sort::Hash(_) => true,
        Sort::Iterator(_) => true,
        Sort::Thread(name) => known.has_thread(name),
    }
}

/// Whether an instance is one of a known thread program.
pub fn is_known_stage(known: &KnownCalls, sort: &Sort) -> bool
    ensures { result ≡ is_known_stage (units_in_tables known.now) sort.now }
{
    match sort {
        Sort::Package(_) => false,
        Sort::Hash(_) => false,
        Sort::Iterator(_) => false,
        Sort::Thread(name) => known.has_thread(name),
    }
}

/// The numbers of arguments that a method of an instance takes, where it has one.
pub fn counts_on_sort(known: &KnownCalls, sort: &Sort, method: &Bytes) -> Option<Counts>
    ensures { result ≡ counts_on_sort (units_in_tables known.now) sort.now method.now }
{
    match sort {
        Sort::Package(name) => as_many(known.parameters_under(name, method)),
        Sort::Hash(_) => none_if(is_hash_call(method.as_slice())),
        Sort::Iterator(_) => none_if(is_iterator_call(method.as_slice())),
        Sort::Thread(name) => match known.parameters_of_thread(name) {
            None => None,
            Some(count) => as_many_where(count, method.as_slice()),
        },
    }
}

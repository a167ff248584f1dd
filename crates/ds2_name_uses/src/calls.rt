//! The rules on calls, by tests on names.
ghost use Rattle.std.specs.Prelude.{◌≡◌, ◌&&◌, ◌||◌, IfOk, not, is_some, bytes_eq, codes};
ghost use Rattle.ds2_tree.specs.ExpressionViews.{arguments_of};
ghost use Rattle.ds2_tree.specs.Expressions.{Arguments};
ghost use Rattle.ds2_calls.specs.SortCalls.{counts_by, is_known_by, counts_on_sort};
ghost use Rattle.ds2_names.specs.NameRules.{place_unless, takes_count};
ghost use Rattle.ds2_names.specs.SourceUnit.{spelled_name, is_system_name};
ghost use Rattle.ds2_names.specs.Uses.{CallsOn, Members};
ghost use Rattle.ds2_scope.specs.Earliest.{earliest};
ghost use Rattle.ds2_name_uses.specs.ScopeTables.{tests_by};
ghost use Rattle.ds2_name_uses.specs.UseRules.{visible_sort, unknown_call_on, is_hash_sort, unknown_member_by, unknown_method_by, wrong_count_by_sort, wrong_count_by, is_setting_by, misplaced_by};

use crate::scope::Scope;
use ds2_base::{OutOfMemory, Place};
use ds2_calls::{
    Sort, counts_of, counts_on_sort, is_flag_word, is_known_sort, is_known_stage, takes_count,
};
use ds2_scope::{is_system_name, place_unless, spelled_name};
use ds2_token::Token;
use ds2_tree::{Argument, Callee};
use std::alloc::Global;

// Whether an instance is a hash object.
fn is_hash_sort(sort: &Sort) -> bool
    ensures { result ≡ is_hash_sort sort.now }
{
    match sort {
        Sort::Package(_) => false,
        Sort::Hash(_) => true,
        Sort::Iterator(_) => false,
        Sort::Thread(_) => false,
    }
}

impl<'t, 'u, 'k> Scope<'t, 'u, 'k> {
    // The place of a name that calls nothing, or a system method.
    fn unless_callable(&self, alloc: Global, name: &Token) -> Result<Option<Place>, OutOfMemory>
        ensures { IfOk result (λ place. place ≡ earliest (place_unless (not ((tests_by self.now).is_program && is_system_name (spelled_name name.now)) && is_some (counts_by ((tests_by self.now).calls.method (spelled_name name.now)) (spelled_name name.now))) name.now.place)) }
    {
        let spelled = spelled_name(alloc, name)?;
        let counts = counts_of(self.calls.parameters_of(&spelled), spelled.as_slice());
        let is_system = self.unit.is_program && is_system_name(spelled.as_slice());
        let is_callable = !is_system && counts.is_some();
        Ok(place_unless(is_callable, name.place))
    }

    // The place of a method that an instance of a known sort has not.
    fn unless_method_of(
        &self,
        alloc: Global,
        sort: &Sort,
        method: &Token,
    ) -> Result<Option<Place>, OutOfMemory>
        ensures { IfOk result (λ place. place ≡ earliest (place_unless (not (is_known_by (tests_by self.now).calls.units sort.now) || is_some (counts_on_sort (tests_by self.now).calls.units sort.now (spelled_name method.now))) method.now.place)) }
    {
        let spelled = spelled_name(alloc, method)?;
        let is_known = is_known_sort(self.calls.known, sort);
        let counts = counts_on_sort(self.calls.known, sort, &spelled);
        let is_there = !is_known || counts.is_some();
        Ok(place_unless(is_there, method.place))
    }

    // The place of a method that the instance that a name means has not.
    fn unknown_call_on(
        &self,
        alloc: Global,
        object: &Token,
        method: &Token,
    ) -> Result<Option<Place>, OutOfMemory>
        ensures { IfOk result (λ place. place ≡ earliest (unknown_call_on (tests_by self.now).calls.units method.now (visible_sort (tests_by self.now) (spelled_name object.now)))) }
    {
        let spelled = spelled_name(alloc, object)?;
        match self.visible_sort(&spelled) {
            None => Ok(None),
            Some(sort) => self.unless_method_of(alloc, sort, method),
        }
    }

    /// The place of a call of what is not there.
    pub(crate) fn unknown_call(
        &self,
        alloc: Global,
        callee: &Callee,
    ) -> Result<Option<Place>, OutOfMemory>
        ensures { IfOk result (λ place. (arguments : Arguments) → place ≡ earliest (unknown_method_by (tests_by self.now) (CallsOn callee.now arguments))) }
    {
        match callee {
            Callee::Function(name) => self.unless_callable(alloc, name),
            Callee::Null(_) => Ok(None),
            Callee::Method { object, method, .. } => self.unknown_call_on(alloc, object, method),
        }
    }

    // The place of what stands behind the point of an instance and is not `num_items` of a hash object.
    fn unless_count_of(
        &self,
        alloc: Global,
        sort: &Sort,
        member: &Token,
    ) -> Result<Option<Place>, OutOfMemory>
        ensures { IfOk result (λ place. place ≡ earliest (place_unless (is_hash_sort sort.now && bytes_eq (spelled_name member.now) (codes "num_items")) member.now.place)) }
    {
        let spelled = spelled_name(alloc, member)?;
        let is_count = is_hash_sort(sort) && spelled.as_slice() == b"num_items".as_slice();
        Ok(place_unless(is_count, member.place))
    }

    // Likewise of the instance that a name means.
    fn unknown_member_on(
        &self,
        alloc: Global,
        object: &Token,
        member: &Token,
    ) -> Result<Option<Place>, OutOfMemory>
        ensures { IfOk result (λ place. place ≡ earliest (unknown_member_by member.now (visible_sort (tests_by self.now) (spelled_name object.now)))) }
    {
        let spelled = spelled_name(alloc, object)?;
        match self.visible_sort(&spelled) {
            None => Ok(None),
            Some(sort) => self.unless_count_of(alloc, sort, member),
        }
    }

    /// The place of a member that an instance has not; a flag's word has any.
    pub(crate) fn unknown_member(
        &self,
        alloc: Global,
        object: &Token,
        member: &Token,
    ) -> Result<Option<Place>, OutOfMemory>
        ensures { IfOk result (λ place. place ≡ earliest (unknown_method_by (tests_by self.now) (Members object.now member.now))) }
    {
        if is_flag_word(object) {
            Ok(None)
        } else {
            self.unknown_member_on(alloc, object, member)
        }
    }

    // The place of a name that does not take so many arguments.
    fn unless_taken(
        &self,
        alloc: Global,
        name: &Token,
        n: usize,
    ) -> Result<Option<Place>, OutOfMemory>
        ensures { IfOk result (λ place. place ≡ earliest (place_unless (takes_count (counts_by ((tests_by self.now).calls.method (spelled_name name.now)) (spelled_name name.now)) n) name.now.place)) }
    {
        let spelled = spelled_name(alloc, name)?;
        let counts = counts_of(self.calls.parameters_of(&spelled), spelled.as_slice());
        Ok(place_unless(takes_count(counts, n), name.place))
    }

    // The place of a method that does not take so many arguments, of the instance that a name means.
    fn unless_taken_on(
        &self,
        alloc: Global,
        object: &Token,
        method: &Token,
        n: usize,
    ) -> Result<Option<Place>, OutOfMemory>
        ensures { IfOk result (λ place. place ≡ earliest (wrong_count_by_sort (tests_by self.now).calls.units method.now n (visible_sort (tests_by self.now) (spelled_name object.now)))) }
    {
        let spelled = spelled_name(alloc, object)?;
        match self.visible_sort(&spelled) {
            None => Ok(None),
            Some(sort) => {
                let called = spelled_name(alloc, method)?;
                let counts = counts_on_sort(self.calls.known, sort, &called);
                Ok(place_unless(takes_count(counts, n), method.place))
            }
        }
    }

    /// The place of a call with another number of arguments.
    #[tactic(auto, using(crate::proofs::UsageLemmas::count_is))]
    pub(crate) fn wrong_count(
        &self,
        alloc: Global,
        callee: &Callee,
        arguments: &[Argument],
    ) -> Result<Option<Place>, OutOfMemory>
        ensures { IfOk result (λ place. place ≡ earliest (wrong_count_by (tests_by self.now) (CallsOn callee.now (arguments_of arguments.now)))) }
    {
        match callee {
            Callee::Function(name) => self.unless_taken(alloc, name, arguments.len()),
            Callee::Null(keyword) => Ok(place_unless(arguments.len() == 1, keyword.place)),
            Callee::Method { object, method, .. } => {
                self.unless_taken_on(alloc, object, method, arguments.len())
            }
        }
    }

    // Whether a call is one of `setparms` of an instance of a known thread program.
    fn is_setting(&self, alloc: Global, object: &Token, method: &Token) -> Result<bool, OutOfMemory>
        ensures { IfOk result (λ answer. answer ≡ is_setting_by (tests_by self.now) object.now method.now) }
    {
        let called = spelled_name(alloc, method)?;
        if called.as_slice() == b"setparms".as_slice() {
            let spelled = spelled_name(alloc, object)?;
            match self.visible_sort(&spelled) {
                None => Ok(false),
                Some(sort) => Ok(is_known_stage(self.calls.known, sort)),
            }
        } else {
            Ok(false)
        }
    }

    // The place of a call of `setparms` outside of `init`.
    fn misplaced_setting(
        &self,
        alloc: Global,
        object: &Token,
        method: &Token,
    ) -> Result<Option<Place>, OutOfMemory>
        ensures { IfOk result (λ place. place ≡ earliest (place_unless (not (is_setting_by (tests_by self.now) object.now method.now) || (tests_by self.now).is_init) object.now.place)) }
    {
        let is_setting = self.is_setting(alloc, object, method)?;
        let may_stand = !is_setting || self.is_init;
        Ok(place_unless(may_stand, object.place))
    }

    /// The place of a call that may not stand there.
    pub(crate) fn misplaced_call(
        &self,
        alloc: Global,
        callee: &Callee,
    ) -> Result<Option<Place>, OutOfMemory>
        ensures { IfOk result (λ place. (arguments : Arguments) → place ≡ earliest (misplaced_by (tests_by self.now) (CallsOn callee.now arguments))) }
    {
        match callee {
            Callee::Function(_) => Ok(None),
            Callee::Null(_) => Ok(None),
            Callee::Method { object, method, .. } => {
                self.misplaced_setting(alloc, object, method)
            }
        }
    }
}

//! The rules on uses of names, by tests on names.
ghost use Rattle.std.specs.Prelude.{◌≡◌, ◌∷◌, [], IfOk, is_some, option_copied};
ghost use Rattle.ds2_tree.specs.ExpressionViews.{arguments_of};
ghost use Rattle.ds2_names.specs.NameRules.{place_unless};
ghost use Rattle.ds2_names.specs.SourceUnit.{spelled_name};
ghost use Rattle.ds2_names.specs.Uses.{Values, Members, HandsOver, CallsOn, Sets, WritesTo};
ghost use Rattle.ds2_scope.specs.Earliest.{earliest};
ghost use Rattle.ds2_name_uses.specs.ScopeTables.{tests_by};
ghost use Rattle.ds2_calls.specs.UseParts.{earliest_use};
ghost use Rattle.ds2_name_uses.specs.UseRules.{is_instance_name, visible_sort, is_global_there, is_value_there, is_there, may_be_set, is_object_there, unknown_object, not_variable_by};

use crate::arguments::no_names;
use crate::scope::{Scope, UsageRule};
use ds2_base::{Bytes, OutOfMemory, Place};
use ds2_calls::{Sort, UseRule, is_flag_word};
use ds2_scope::{place_unless, spelled_name};
use ds2_token::Token;
use ds2_tree::{Argument, Callee};
use std::alloc::Global;

impl<'t, 'u, 'k> Scope<'t, 'u, 'k> {
    // Whether a name is that of an instance.
    fn is_instance_name(&self, name: &Bytes) -> bool
        ensures { result ≡ is_instance_name (tests_by self.now) name.now }
    {
        match self.calls.sort_of(name) {
            None => false,
            Some(_) => true,
        }
    }

    /// What the instance is one of that a name means.
    pub(crate) fn visible_sort(&self, name: &Bytes) -> Option<&Sort>
        ensures { option_copied result ≡ visible_sort (tests_by self.now) name.now }
    {
        if self.locals.contains(name) {
            None
        } else {
            self.calls.sort_of(name)
        }
    }

    // Whether a name means an instance.
    fn sees_instance(&self, name: &Bytes) -> bool
        ensures { result ≡ is_some (visible_sort (tests_by self.now) name.now) }
    {
        match self.visible_sort(name) {
            None => false,
            Some(_) => true,
        }
    }

    /// Whether a global is there.
    pub(crate) fn is_global_there(&self, name: &Bytes) -> bool
        ensures { result ≡ is_global_there (tests_by self.now) name.now }
    {
        self.unit.settable.contains(name)
            || self.unit.flags.contains(name)
            || self.is_instance_name(name)
            || self.unit.is_open
    }

    // Whether a name has a value.
    fn is_value_there(&self, name: &Bytes) -> bool
        ensures { result ≡ is_value_there (tests_by self.now) name.now }
    {
        self.locals.contains(name)
            || self.unit.settable.contains(name)
            || self.unit.flags.contains(name)
            || self.unit.is_open && !self.is_instance_name(name)
    }

    // Whether a name is there.
    fn is_there(&self, name: &Bytes) -> bool
        ensures { result ≡ is_there (tests_by self.now) name.now }
    {
        self.locals.contains(name) || self.is_global_there(name)
    }

    // Whether a name may be set.
    fn may_be_set(&self, name: &Bytes) -> bool
        ensures { result ≡ may_be_set (tests_by self.now) name.now }
    {
        self.locals.contains(name)
            || self.unit.settable.contains(name)
            || self.unit.is_open && !(self.unit.flags.contains(name) || self.is_instance_name(name))
    }

    // The place of a name that has no value.
    fn unless_value(&self, alloc: Global, name: &Token) -> Result<Option<Place>, OutOfMemory>
        ensures { IfOk result (λ place. place ≡ earliest (place_unless (is_value_there (tests_by self.now) (spelled_name name.now)) name.now.place)) }
    {
        let spelled = spelled_name(alloc, name)?;
        Ok(place_unless(self.is_value_there(&spelled), name.place))
    }

    // The place of a name that is not there.
    fn unless_there(&self, alloc: Global, name: &Token) -> Result<Option<Place>, OutOfMemory>
        ensures { IfOk result (λ place. place ≡ earliest (place_unless (is_there (tests_by self.now) (spelled_name name.now)) name.now.place)) }
    {
        let spelled = spelled_name(alloc, name)?;
        Ok(place_unless(self.is_there(&spelled), name.place))
    }

    // The place of a name that may not be set.
    fn unless_settable(&self, alloc: Global, name: &Token) -> Result<Option<Place>, OutOfMemory>
        ensures { IfOk result (λ place. place ≡ earliest (place_unless (may_be_set (tests_by self.now) (spelled_name name.now)) name.now.place)) }
    {
        let spelled = spelled_name(alloc, name)?;
        Ok(place_unless(self.may_be_set(&spelled), name.place))
    }

    // The place of a table that is no output.
    fn unless_output(&self, alloc: Global, name: &Token) -> Result<Option<Place>, OutOfMemory>
        ensures { IfOk result (λ place. place ≡ earliest (place_unless ((tests_by self.now).is_output (spelled_name name.now)) name.now.place)) }
    {
        let spelled = spelled_name(alloc, name)?;
        let is_output = self.unit.outputs.contains(&spelled)
            && spelled.as_slice() != b"_null_".as_slice();
        Ok(place_unless(is_output, name.place))
    }

    // Whether what stands before a point is a flag's word before its BY variable, or an instance.
    fn is_object_there(
        &self,
        alloc: Global,
        object: &Token,
        member: &Token,
    ) -> Result<bool, OutOfMemory>
        ensures { IfOk result (λ answer. answer ≡ is_object_there (tests_by self.now) object.now member.now) }
    {
        if is_flag_word(object) {
            let spelled = spelled_name(alloc, member)?;
            Ok(self.unit.bys.contains(&spelled))
        } else {
            let spelled = spelled_name(alloc, object)?;
            Ok(self.sees_instance(&spelled))
        }
    }

    // The place of what stands before a point and is not there.
    fn unless_object(
        &self,
        alloc: Global,
        object: &Token,
        member: &Token,
    ) -> Result<Option<Place>, OutOfMemory>
        ensures { IfOk result (λ place. place ≡ earliest (place_unless (is_object_there (tests_by self.now) object.now member.now) object.now.place)) }
    {
        let is_there = self.is_object_there(alloc, object, member)?;
        Ok(place_unless(is_there, object.place))
    }

    // The place of a name before a point that is no instance.
    fn unless_instance(&self, alloc: Global, object: &Token) -> Result<Option<Place>, OutOfMemory>
        ensures { IfOk result (λ place. place ≡ earliest (place_unless (is_some (visible_sort (tests_by self.now) (spelled_name object.now))) object.now.place)) }
    {
        let spelled = spelled_name(alloc, object)?;
        Ok(place_unless(self.sees_instance(&spelled), object.place))
    }

    // The place of the object of a call that is not there.
    fn unknown_object(&self, alloc: Global, callee: &Callee) -> Result<Option<Place>, OutOfMemory>
        ensures { IfOk result (λ place. place ≡ earliest (unknown_object (tests_by self.now) callee.now)) }
    {
        match callee {
            Callee::Function(_) => Ok(None),
            Callee::Null(_) => Ok(None),
            Callee::Method { object, .. } => self.unless_instance(alloc, object),
        }
    }

    // The place of an argument for an in_out parameter that is no name.
    fn handed_value(
        &self,
        alloc: Global,
        callee: &Callee,
        arguments: &[Argument],
    ) -> Result<Option<Place>, OutOfMemory>
        ensures { IfOk result (λ place. place ≡ earliest (not_variable_by (tests_by self.now) (CallsOn callee.now (arguments_of arguments.now)))) }
    {
        let flags = self.calls.flags_of(alloc, callee)?;
        Ok(no_names(flags, arguments))
    }
}

impl<'t, 'u, 'k> UseRule for Scope<'t, 'u, 'k> {
    ghost use Rattle.ds2_name_uses.specs.ScopeTables.{tests_by};
    ghost use Rattle.ds2_name_uses.specs.UseRules.{flags_by, broken_by};

    ghost flags = { λ s. flags_by (tests_by s) };

    ghost places = { λ s. broken_by s.rule (tests_by s) };

    fn in_out(&self, alloc: Global, callee: &Callee) -> Result<&[bool], OutOfMemory> {
        self.calls.flags_of(alloc, callee)
    }

    fn value(&self, alloc: Global, name: &Token) -> Result<Option<Place>, OutOfMemory> {
        match self.rule {
            UsageRule::UnknownName => self.unless_value(alloc, name),
            UsageRule::NotVariable => Ok(None),
            UsageRule::UnknownMethod => Ok(None),
            UsageRule::WrongCount => Ok(None),
            UsageRule::MisplacedSetting => Ok(None),
        }
    }

    fn member(
        &self,
        alloc: Global,
        object: &Token,
        member: &Token,
    ) -> Result<Option<Place>, OutOfMemory> {
        match self.rule {
            UsageRule::UnknownName => self.unless_object(alloc, object, member),
            UsageRule::NotVariable => Ok(None),
            UsageRule::UnknownMethod => self.unknown_member(alloc, object, member),
            UsageRule::WrongCount => Ok(None),
            UsageRule::MisplacedSetting => Ok(None),
        }
    }

    fn hand_over(&self, alloc: Global, name: &Token) -> Result<Option<Place>, OutOfMemory> {
        match self.rule {
            UsageRule::UnknownName => self.unless_there(alloc, name),
            UsageRule::NotVariable => self.unless_settable(alloc, name),
            UsageRule::UnknownMethod => Ok(None),
            UsageRule::WrongCount => Ok(None),
            UsageRule::MisplacedSetting => Ok(None),
        }
    }

    fn call(
        &self,
        alloc: Global,
        callee: &Callee,
        arguments: &[Argument],
    ) -> Result<Option<Place>, OutOfMemory> {
        match self.rule {
            UsageRule::UnknownName => self.unknown_object(alloc, callee),
            UsageRule::NotVariable => self.handed_value(alloc, callee, arguments),
            UsageRule::UnknownMethod => self.unknown_call(alloc, callee),
            UsageRule::WrongCount => self.wrong_count(alloc, callee, arguments),
            UsageRule::MisplacedSetting => self.misplaced_call(alloc, callee),
        }
    }

    fn set(&self, alloc: Global, name: &Token) -> Result<Option<Place>, OutOfMemory> {
        match self.rule {
            UsageRule::UnknownName => self.unless_there(alloc, name),
            UsageRule::NotVariable => self.unless_settable(alloc, name),
            UsageRule::UnknownMethod => Ok(None),
            UsageRule::WrongCount => Ok(None),
            UsageRule::MisplacedSetting => Ok(None),
        }
    }

    fn write(&self, alloc: Global, table: &Token) -> Result<Option<Place>, OutOfMemory> {
        match self.rule {
            UsageRule::UnknownName => self.unless_output(alloc, table),
            UsageRule::NotVariable => Ok(None),
            UsageRule::UnknownMethod => Ok(None),
            UsageRule::WrongCount => Ok(None),
            UsageRule::MisplacedSetting => Ok(None),
        }
    }
}

//! The constants of a program's code.
ghost use Rattle.std.specs.Prelude.{◌≡◌, [], Some, map, IfOk, OnOk, OnErr};
ghost use Rattle.std.specs.BTreeMap.{Updates, IsUnchanged};
ghost use Rattle.ds2_program_code.specs.CodeConstants.{with_used_constant, constant_number, constant_part};
ghost use Rattle.ds2_constants.specs.ConstantKeys.{used_of_key};
ghost use Rattle.ds2_constants.specs.KeyOrder.{key_cmp};

use crate::ConstantKey;
use ds2_base::{List, OutOfMemory};
use ds2_code::Constant;
use ds2_value::{Ty, Value};
use std::alloc::Global;
use std::collections::BTreeMap;
use std::marker::Model;

/// Constants that are not null, each once, in the order in which they were added, with the number of each.
#[derive(Drop)]
pub struct ConstantTable {
    keys: List<ConstantKey>,
    numbers: BTreeMap<ConstantKey, usize>,
}

impl Model for ConstantTable {
    ghost use Rattle.std.specs.Prelude.{List as Items, map};
    ghost use Rattle.ds2_program_code.specs.UsedConstants.{UsedConstant};
    ghost use Rattle.ds2_constants.specs.ConstantKeys.{used_of_key};

    ghost Value = { Items UsedConstant };

    ghost view = { λ t. map used_of_key t.keys };

    ghost use Rattle.ds2_constants.specs.ConstantNumbers.{HaveConstantNumbers};

    ghost invariant = { λ t. HaveConstantNumbers t.keys t.numbers };
}

// A constant as a key of its own.
fn key_of(alloc: Global, value: &Value, ty: Ty) -> Result<ConstantKey, OutOfMemory>
    ensures { IfOk result (λ key. used_of_key key ≡ record { value = value.now; ty = ty }) }
{
    Ok(ConstantKey {
        ty,
        value: value.copy(alloc)?,
    })
}

// Keeps a number under a key. After a refusal all is as it was.
fn give_number(
    numbers: &mut BTreeMap<ConstantKey, usize>,
    key: ConstantKey,
    number: usize,
) -> Result<(), OutOfMemory>
    ensures updates { OnOk result (Updates key_cmp numbers.old numbers.new key (Some number)) }
    ensures err { OnErr result (IsUnchanged numbers.old numbers.new) }
{
    numbers.insert(key, number)?;
    Ok(())
}

impl ConstantTable {
    /// A table without constants. Takes no memory.
    pub fn new(alloc: Global) -> Self
        ensures { result ≡ [] }
    {
        ConstantTable {
            keys: List::new(alloc),
            numbers: BTreeMap::new(alloc),
        }
    }

    /// Adds a constant, unless it is null or stands there.
    pub fn add(&mut self, alloc: Global, value: &Value, ty: Ty) -> Result<(), OutOfMemory>
        ensures { OnOk result (self.new ≡ with_used_constant self.old (record { value = value.now; ty = ty })) }
    {
        if value.is_null() {
            return Ok(());
        }
        let key = key_of(alloc, value, ty)?;
        let is_there = self.numbers.contains_key(&key);
        if is_there {
            return Ok(());
        }
        let number = self.keys.len();
        let last = key_of(alloc, value, ty)?;
        self.keys.push(last)?;
        match give_number(&mut self.numbers, key, number) {
            Ok(()) => Ok(()),
            Err(stop) => {
                self.keys.truncate(number);
                Err(stop)
            }
        }
    }

    /// The number of a constant; 0 where it does not stand there.
    pub fn number(&self, key: &ConstantKey) -> usize
        ensures { result ≡ constant_number self.now key.now.value key.now.ty }
    {
        self.numbers.get(key).copied().unwrap_or(0)
    }

    /// The constants as code has them.
    pub fn to_constants(&self, alloc: Global) -> Result<List<Constant>, OutOfMemory>
        ensures { IfOk result (λ list. list ≡ map constant_part self.now) }
    {
        let mut list = List::new(alloc);
        'keys: for key in self.keys.as_slice() {
            list.push(Constant {
                ty: key.ty,
                value: key.value.copy(alloc)?,
            })?;
        }
        Ok(list)
    }
}

//! Instructions by which the code of a body reaches what it names.
ghost use Rattle.std.specs.Prelude.{◌≡◌, IfOk};
ghost use Rattle.std.specs.Option.{option_map};
ghost use Rattle.ds2_meaning.specs.Evaluation.{callee_home};
ghost use Rattle.ds2_gen.specs.CodeCells.{ParameterCell};
ghost use Rattle.ds2_gen.specs.ExpressionCode.{cell_of};
ghost use Rattle.ds2_program_code.specs.PlacedProgram.{number_of_location, parameter_locations};
ghost use Rattle.ds2_program_code.specs.CodeConstants.{constant_number};
ghost use Rattle.ds2_numbering.specs.CellNumbers.{cell_among, code_cell, tree_of};
ghost use Rattle.ds2_numbering.specs.FrameNumbers.{way_in};
ghost use Rattle.ds2_numbering.specs.BodyTrees.{pushed_by, walking_cell_of, other_cell_of, numbers_of_body};
ghost use Rattle.ds2_numbering.specs.SoughtLocations.{home_of_name, location_sought};

use crate::BodyNumbers;
use crate::cell::{Cell, hash_instr, iterator_instr, load_instr, store_instr};
use crate::find::{find_hash, find_iterator, find_parameter};
use crate::methods::{call_instr, leaves_result};
use crate::sought::{HomeName, Sought};
use ds2_base::{Name, OutOfMemory, Text};
use ds2_code::Instr;
use ds2_constants::{ConstantKey, ConstantTable, label_value, text_value};
use ds2_emitter::{Numbering, Returning};
use ds2_meaning::{Program, Reference};
use ds2_value::{HashFunction, IteratorFunction, Ty, Value};
use std::alloc::Global;

// Pushes a constant of a table.
#[tactic(auto, using(crate::proofs::BodyLemmas::constant_pushed, crate::proofs::BodyLemmas::null_pushed))]
fn constant_of(
    alloc: Global,
    constants: &ConstantTable,
    value: &Value,
    ty: Ty,
) -> Result<Instr, OutOfMemory>
    ensures { IfOk result (λ i. i ≡ pushed_by (constant_number constants.now) value.now ty) }
{
    if value.is_null() {
        return Ok(Instr::Null(ty));
    }
    let key = ConstantKey {
        ty,
        value: value.copy(alloc)?,
    };
    match u32::try_from(constants.number(&key)) {
        Ok(number) => Ok(Instr::Const(number)),
        Err(_) => Err(OutOfMemory),
    }
}

// The cell of a parameter of a thread program.
fn parameter_cell(program: &Program, sought: &Sought<'_>) -> Result<Option<Cell>, OutOfMemory>
    ensures { IfOk result (λ cell. option_map code_cell cell ≡ option_map ParameterCell (number_of_location (parameter_locations (tree_of program.now)) (location_sought sought.now))) }
{
    match find_parameter(program, sought)? {
        None => Ok(None),
        Some(n) => Ok(Some(Cell::Parameter(n))),
    }
}

// The cell of an iterator or a parameter of a thread program.
fn walking_cell(program: &Program, sought: &Sought<'_>) -> Result<Option<Cell>, OutOfMemory>
    ensures { IfOk result (λ cell. option_map code_cell cell ≡ walking_cell_of (tree_of program.now) (location_sought sought.now)) }
{
    match find_iterator(program, sought)? {
        None => parameter_cell(program, sought),
        Some(n) => Ok(Some(Cell::Iterator(n))),
    }
}

// The cell of a hash object, an iterator or a parameter of a thread program.
fn other_cell(program: &Program, sought: &Sought<'_>) -> Result<Option<Cell>, OutOfMemory>
    ensures { IfOk result (λ cell. option_map code_cell cell ≡ other_cell_of (tree_of program.now) (location_sought sought.now)) }
{
    match find_hash(program, sought)? {
        None => walking_cell(program, sought),
        Some(n) => Ok(Some(Cell::Hash(n))),
    }
}

// Whose method a call calls: that of the instance that it names, or of the home of its body.
fn called_home<'a>(home: HomeName<'a>, instance: &'a Option<Name>) -> HomeName<'a>
    ensures { home_of_name result ≡ callee_home (home_of_name home.entry) instance.now }
{
    match instance {
        None => home,
        Some(name) => HomeName::Instance(name),
    }
}

impl<'p, 't, 'f> BodyNumbers<'p, 't, 'f> {
    // The cell of a location.
    fn cell(&self, sought: &Sought<'_>) -> Result<Option<Cell>, OutOfMemory>
        ensures { IfOk result (λ cell. option_map code_cell cell ≡ cell_among self.now.slots.now (tree_of self.now.program.now) (location_sought sought.now)) }
    {
        match self.slots.number(sought) {
            None => other_cell(self.program, sought),
            Some(n) => Ok(Some(Cell::Slot(n))),
        }
    }

    // The cell of what a reference of the body names.
    fn named(&self, reference: &Reference) -> Result<Option<Cell>, OutOfMemory>
        ensures { IfOk result (λ cell. option_map code_cell cell ≡ cell_of (numbers_of_body self.now) reference.now) }
    {
        match reference {
            Reference::At(global) => self.cell(&Sought::global(self.frame.home(), global)),
            Reference::Local(name) => self.frame.local(name),
        }
    }
}

impl<'p, 't, 'f> Numbering for BodyNumbers<'p, 't, 'f> {
    ghost numbers = { numbers_of_body };

    ghost way = { λ s. way_in s.frame };

    fn constant(&self, value: &Value, ty: Ty) -> Result<Instr, OutOfMemory> {
        constant_of(self.alloc, self.constants, value, ty)
    }

    fn load(&self, variable: &Reference, ty: Ty) -> Result<Instr, OutOfMemory> {
        Ok(load_instr(self.named(variable)?, ty))
    }

    fn store(&self, variable: &Reference) -> Result<Instr, OutOfMemory> {
        Ok(store_instr(self.named(variable)?))
    }

    fn call(&self, instance: &Option<Name>, method: u32) -> Result<Instr, OutOfMemory> {
        let home = called_home(self.frame.home(), instance);
        call_instr(self.program, home, method)
    }

    fn hash_call(&self, hash: &Name, function: HashFunction) -> Result<Instr, OutOfMemory> {
        let cell = self.cell(&Sought::named(self.frame.home(), hash))?;
        Ok(hash_instr(cell, function))
    }

    fn iterator_call(
        &self,
        iterator: &Name,
        function: IteratorFunction,
    ) -> Result<Instr, OutOfMemory> {
        let cell = self.cell(&Sought::named(self.frame.home(), iterator))?;
        Ok(iterator_instr(cell, function))
    }

    fn returning(&self) -> Returning {
        self.frame.way()
    }

    fn has_result(&self, instance: &Option<Name>, method: u32) -> bool {
        let home = called_home(self.frame.home(), instance);
        leaves_result(self.program, home, method)
    }

    fn text(&self, text: &Text) -> Result<Instr, OutOfMemory> {
        let (value, ty) = text_value(self.alloc, text)?;
        constant_of(self.alloc, self.constants, &value, ty)
    }

    fn label(&self, name: &Text) -> Result<Instr, OutOfMemory> {
        let (value, ty) = label_value(self.alloc, name)?;
        constant_of(self.alloc, self.constants, &value, ty)
    }

    fn load_kept(&self, number: u32, ty: Ty) -> Result<Instr, OutOfMemory> {
        Ok(load_instr(Some(self.frame.kept(number)?), ty))
    }

    fn store_kept(&self, number: u32) -> Result<Instr, OutOfMemory> {
        Ok(store_instr(Some(self.frame.kept(number)?)))
    }

    fn store_parameter(&self, instance: &Name, parameter: &Name) -> Result<Instr, OutOfMemory> {
        let cell = self.cell(&Sought::parameter(instance, parameter))?;
        Ok(store_instr(cell))
    }

    fn store_local(&self, local: &Name) -> Result<Instr, OutOfMemory> {
        let cell = self.frame.local(local)?;
        Ok(store_instr(cell))
    }

    fn construct(&self, instance: &Name, method: u32) -> Result<Instr, OutOfMemory> {
        call_instr(self.program, HomeName::Instance(instance), method)
    }

    fn constructor_has_result(&self, instance: &Name, method: u32) -> bool {
        leaves_result(self.program, HomeName::Instance(instance), method)
    }
}

//! Where a body keeps its parameters, its locals and the values that its code keeps.
ghost use Rattle.std.specs.Prelude.{◌≡◌, ◌+◌, IfOk};
ghost use Rattle.std.specs.Option.{option_map};
ghost use Rattle.ds2_meaning.specs.View.{typed_method};
ghost use Rattle.ds2_gen.specs.CodeCells.{SlotCell, LocalCell};
ghost use Rattle.ds2_program_code.specs.PlacedProgram.{number_of_name, names_of_variables, frame_names};
ghost use Rattle.ds2_numbering.specs.CellNumbers.{code_cell};
ghost use Rattle.ds2_numbering.specs.FrameNumbers.{home_in, local_in, kept_in, way_in};
ghost use Rattle.ds2_numbering.specs.SoughtLocations.{home_of_name};

use crate::cell::Cell;
use crate::name_table::{MethodTable, VariableTable};
use crate::sought::HomeName;
use crate::sums::{plus_length, sum};
use ds2_base::{Name, OutOfMemory};
use ds2_emitter::Returning;
use ds2_meaning::{Instance, Statement};

/// A body, and where it keeps what is its own.
#[derive(Clone, Copy)]
pub enum Frame<'p, 'f> {
    /// A system method, in slots from a first one on: its locals, the instances that it constructs first, and its statements.
    System {
        first: u32,
        locals: &'f VariableTable<'p>,
        instances: &'p [Instance],
        body: &'p [Statement],
    },
    /// A declared method of a home, in the frame of a call.
    Declared {
        home: HomeName<'p>,
        method: &'f MethodTable<'p>,
    },
}

// The slot of the local of a name, in slots from a first one on.
fn system_local(
    first: u32,
    locals: &VariableTable<'_>,
    name: &Name,
) -> Result<Option<Cell>, OutOfMemory>
    ensures { IfOk result (λ cell. option_map code_cell cell ≡ option_map (λ n. SlotCell (first + n)) (number_of_name (names_of_variables locals.now) name.now)) }
{
    match locals.number(name) {
        None => Ok(None),
        Some(n) => {
            let slot = sum(first, n)?;
            Ok(Some(Cell::Slot(slot)))
        }
    }
}

// The place of the parameter or local of a name in the frame of a method.
fn frame_local(method: &MethodTable<'_>, name: &Name) -> Option<Cell>
    ensures { option_map code_cell result ≡ option_map LocalCell (number_of_name (frame_names (typed_method method.now)) name.now) }
{
    match method.number(name) {
        None => None,
        Some(n) => Some(Cell::Local(n)),
    }
}

impl<'p, 'f> Frame<'p, 'f> {
    /// Whose code it is.
    pub fn home(&self) -> HomeName<'p>
        ensures { home_of_name result ≡ home_in self.now }
    {
        match self {
            Frame::System { .. } => HomeName::Own,
            Frame::Declared { home, method: _ } => *home,
        }
    }

    /// How its statements return.
    pub fn way(&self) -> Returning
        ensures { result ≡ way_in self.now }
    {
        match self {
            Frame::System { .. } => Returning::ToEnd,
            Frame::Declared { home: _, method } => match method.method().returns {
                None => Returning::WithoutResult,
                Some(_) => Returning::WithResult,
            },
        }
    }

    /// Where the parameter or local of a name is.
    pub fn local(&self, name: &Name) -> Result<Option<Cell>, OutOfMemory>
        ensures { IfOk result (λ cell. option_map code_cell cell ≡ local_in self.now name.now) }
    {
        match self {
            Frame::System { first, locals, .. } => system_local(*first, locals, name),
            Frame::Declared { home: _, method } => Ok(frame_local(method, name)),
        }
    }

    /// Where a kept value is, by its number.
    pub fn kept(&self, number: u32) -> Result<Cell, OutOfMemory>
        ensures { IfOk result (λ cell. code_cell cell ≡ kept_in self.now number) }
    {
        match self {
            Frame::System { first, locals, .. } => {
                let behind = plus_length(*first, locals.as_slice().len())?;
                let slot = sum(behind, number)?;
                Ok(Cell::Slot(slot))
            }
            Frame::Declared { home: _, method } => {
                let method = method.method();
                let parameters = plus_length(0, method.parameters.len())?;
                let behind = plus_length(parameters, method.locals.len())?;
                let place = sum(behind, number)?;
                Ok(Cell::Local(place))
            }
        }
    }
}

//! The loads of a program over its tables.
ghost use Rattle.std.specs.Prelude.{◌≡◌, ◌≤◌, IsTrue, IfOk, length};
ghost use Rattle.ds2_reading.specs.ReadingFits.{reading_fits_tables};
ghost use Rattle.ds2_slots.specs.LoadedHashes.{AreSlotTypesInBounds};
ghost use Rattle.ds2_code_answer.specs.CodeLoads.{code_loads, code_reading, retains_columns};
ghost use Rattle.ds2_loads.specs.Sources.{IsNextLoad};
ghost use Rattle.ds2_loads.specs.StatementSource.{current_settings};
ghost use Rattle.ds2_loads.specs.Readings.{ReadsNoThread};
ghost use Rattle.ds2_loads.specs.Grains.{IsGrainOfReading};
ghost use Rattle.ds2_loads.specs.LoadCursors.{IsLoadOver, tables_over, bys_over, tables_by_row, cursor_left, cursor_groups};
ghost use Rattle.ds2_loads.specs.GroupedLoads.{loads_in_groups};

use crate::kept_loads::no_load;
use crate::load_cursor::LoadCursor;
use crate::opening::{open_cursor, open_walk, retains_of};
use crate::source::LoadSource;
use crate::table_load::TableLoad;
use ds2_base::{List, OutOfMemory};
use ds2_code::ProgramParts;
use ds2_machine::UnitLoad;
use ds2_reading::{Reading, Tables};
use ds2_value::Value;
use std::alloc::Global;

/// The loads of a program over its tables: a place in them, and the load at which it stands.
#[derive(Drop)]
pub struct ProgramLoads<'a> {
    at: TableLoad<'a>,
    cursor: LoadCursor,
    // within a group that was entered, how many of its loads are left
    most: Option<u64>,
    ghost as_many_tables: { tables_over (length at.reading.now.tables) cursor ≡ length at.reading.now.tables },
    ghost as_many_bys: { bys_over (length at.reading.now.bys) cursor ≡ length at.reading.now.bys },
    ghost few_by_row: { tables_by_row (length at.reading.now.tables) cursor ≤ 16 },
}

impl UnitLoad for ProgramLoads<'_> {
    ghost use Rattle.ds2_loads.specs.StatementSource.{current_settings};

    ghost settings = { λ loads. current_settings loads.at };

    fn set_into(&self, alloc: Global, slots: &mut List<Value>) -> Result<(), OutOfMemory> {
        self.at.set_slots(alloc, slots)
    }
}

impl<'a> LoadSource for ProgramLoads<'a> {
    ghost use Rattle.ds2_loads.specs.ProgramSources.{program_left, program_groups};

    ghost left = { λ loads. program_left loads };

    ghost grouped = { λ loads. program_groups loads };

    #[tactic(auto, using(crate::proofs::LoadsTaken::next_taken))]
    fn next_load(&mut self) -> bool {
        let Some(most) = self.most else {
            return self.step();
        };
        if most == 0 {
            return false;
        }
        self.most = Some(most - 1);
        self.step()
    }

    fn groups(&self) -> u64 {
        self.cursor.groups()
    }

    fn enter(&mut self, g: u64) {
        let loads = self.cursor.enter(g);
        self.most = Some(loads);
    }

    fn copy(&self, alloc: Global) -> Result<ProgramLoads<'a>, OutOfMemory> {
        let cursor = self.cursor.copy(alloc)?;
        Ok(ProgramLoads {
            at: TableLoad {
                slots: self.at.slots,
                reading: self.at.reading,
                retains: self.at.retains,
                tables: self.at.tables,
                load: self.at.load,
            },
            cursor,
            most: self.most,
        })
    }
}

impl<'a> ProgramLoads<'a> {
    ghost use Rattle.ds2_loads.specs.ProgramSources.{program_left, program_groups};

    /// The loads of a program over its tables, before the first one, in groups at a grain: with BY variables of loads with equal values
    /// of so many first ones, and without BY variables, at grain 0, of one load each.
    pub fn open(
        alloc: Global,
        program: &'a ProgramParts,
        reading: &'a Reading,
        tables: &'a Tables,
        grain: u32,
    ) -> Result<ProgramLoads<'a>, OutOfMemory>
        requires reads { ReadsNoThread program.now.reading }
        requires reading { reading.now ≡ code_reading program.now }
        requires types { AreSlotTypesInBounds program.now.slots }
        requires fits { IsTrue (reading_fits_tables tables.now (code_reading program.now)) }
        requires grain { IsGrainOfReading program.now.reading grain }
        ensures left { IfOk result (λ loads. program_left loads ≡ code_loads program.now tables.now) }
        ensures groups { IfOk result (λ loads. program_groups loads ≡ loads_in_groups grain program.now tables.now) }
    {
        let cursor = open_cursor(alloc, program, reading, tables, grain)?;
        Ok(ProgramLoads {
            at: before_first(program, reading, tables),
            cursor,
            most: None,
        })
    }

    /// The loads of a program over its tables, before the first one, for those who ask for no groups: no place of a group is kept, and
    /// the rows of `set` without BY variables are not sorted.
    pub fn walk(
        alloc: Global,
        program: &'a ProgramParts,
        reading: &'a Reading,
        tables: &'a Tables,
    ) -> Result<ProgramLoads<'a>, OutOfMemory>
        requires reads { ReadsNoThread program.now.reading }
        requires reading { reading.now ≡ code_reading program.now }
        requires types { AreSlotTypesInBounds program.now.slots }
        requires fits { IsTrue (reading_fits_tables tables.now (code_reading program.now)) }
        ensures { IfOk result (λ loads. program_left loads ≡ code_loads program.now tables.now) }
    {
        let cursor = open_walk(alloc, program, reading, tables)?;
        Ok(ProgramLoads {
            at: before_first(program, reading, tables),
            cursor,
            most: None,
        })
    }

    // Goes to the next load of the cursor.
    fn step(&mut self) -> bool
        ensures next { IsNextLoad result (cursor_left self.old.at self.old.cursor) (current_settings self.new.at) (cursor_left self.new.at self.new.cursor) }
        ensures groups { cursor_groups self.new.at self.new.cursor ≡ cursor_groups self.old.at self.old.cursor }
        ensures most { self.new.most ≡ self.old.most }
    {
        let ProgramLoads { at, cursor, .. } = self;
        let tables = at.tables;
        let reading = at.reading;
        let reads = reading.tables.as_slice();
        cursor.next_load(tables, reads, &mut at.load)
    }
}

// What a program stands at before its first load.
fn before_first<'a>(
    program: &'a ProgramParts,
    reading: &'a Reading,
    tables: &'a Tables,
) -> TableLoad<'a>
    requires { AreSlotTypesInBounds program.now.slots }
    ensures slots { result.slots.now ≡ program.now.slots }
    ensures over { IsLoadOver reading.now (retains_columns program.now.reading) tables.now result }
{
    TableLoad {
        slots: program.slots.as_slice(),
        reading,
        retains: retains_of(&program.reading),
        tables,
        load: no_load(),
    }
}

//! The layout of a thread program, once with ample memory.
use ds2_base::{List, Name, OutOfMemory, Place, Stop};
use ds2_layout::{Layout, LayoutSlot, SlotRole, lay_out_thread};
use ds2_meaning::{
    Global as Named, OutputColumn, OutputTable, Program, Reading, SystemMethod, TypedThread,
    Variable,
};
use ds2_value::Ty;
use std::alloc::Global;

fn name(alloc: Global, word: &str) -> Result<Name, OutOfMemory> {
    match Name::new(alloc, word) {
        Ok(name) => Ok(name),
        Err(Stop::Refused(_)) => Err(OutOfMemory),
        Err(Stop::OutOfMemory) => Err(OutOfMemory),
    }
}

// A BIGINT variable.
fn variable(alloc: Global, word: &str) -> Result<Variable, OutOfMemory> {
    Ok(Variable {
        name: name(alloc, word)?,
        ty: Ty::BigInt,
    })
}

// What the program declares and writes: `kept` and `cleared` are declared, of which the first is retained, and the second is written.
#[derive(Drop)]
struct CommonParts {
    declared: List<Variable>,
    retained: List<Name>,
    outputs: List<OutputTable>,
}

fn parts(alloc: Global) -> Result<CommonParts, OutOfMemory> {
    let mut declared = List::new(alloc);
    declared.push(variable(alloc, "kept")?)?;
    declared.push(variable(alloc, "cleared")?)?;
    let mut retained = List::new(alloc);
    retained.push(name(alloc, "kept")?)?;
    let mut outputs = List::new(alloc);
    outputs.push(output(alloc, "cleared")?)?;
    Ok(CommonParts {
        declared,
        retained,
        outputs,
    })
}

// A program of these parts, with a `run` that does nothing.
fn program(
    alloc: Global,
    parts: CommonParts,
    columns: List<Variable>,
    reading: Reading,
) -> Program {
    let CommonParts {
        declared,
        retained,
        outputs,
    } = parts;
    let run = SystemMethod {
        place: Place::start(),
        locals: List::new(alloc),
        body: List::new(alloc),
    };
    Program {
        declared,
        columns,
        retained,
        instances: List::new(alloc),
        hashes: List::new(alloc),
        iterators: List::new(alloc),
        threads: List::new(alloc),
        reading,
        outputs,
        methods: List::new(alloc),
        init: None,
        run: Some(run),
        term: None,
    }
}

// One variable.
fn variables(alloc: Global, word: &str) -> Result<List<Variable>, OutOfMemory> {
    let mut variables = List::new(alloc);
    variables.push(variable(alloc, word)?)?;
    Ok(variables)
}

// An output whose one column has the value of a variable.
fn output(alloc: Global, source: &str) -> Result<OutputTable, OutOfMemory> {
    let column = OutputColumn {
        name: name(alloc, "renamed")?,
        source: name(alloc, source)?,
        ty: Ty::BigInt,
    };
    let mut columns = List::new(alloc);
    columns.push(column)?;
    Ok(OutputTable {
        name: name(alloc, "o")?,
        overwrites: false,
        columns,
    })
}

// The thread program, with a parameter.
fn thread_layout(alloc: Global) -> Result<Layout, OutOfMemory> {
    let name = name(alloc, "t")?;
    let parameters = variables(alloc, "n")?;
    let parts = parts(alloc)?;
    let typed = TypedThread {
        name,
        parameters,
        program: program(alloc, parts, List::new(alloc), Reading::Once),
        stage: None,
    };
    lay_out_thread(alloc, &typed)
}

// What a slot is for, and the name of its variable.
fn said(slot: &LayoutSlot) -> (&str, &str) {
    match &slot.global {
        Named::Named(name) => ("variable", name.as_str()),
        Named::First(name) => ("first", name.as_str()),
        Named::Last(name) => ("last", name.as_str()),
        Named::Present(name) => ("in", name.as_str()),
        Named::Parameter(name) => ("parameter", name.as_str()),
    }
}

// Whether these are the slots, each a BIGINT of the program itself.
fn are(slots: &[LayoutSlot], wanted: &[(&str, &str, SlotRole)]) -> bool {
    let mut hold = slots.len() == wanted.len();
    for (slot, (sort, name, role)) in slots.iter().zip(wanted) {
        hold = hold && said(slot) == (*sort, *name) && slot.role == *role;
        hold = hold && slot.ty == Ty::BigInt && slot.instance.is_none();
    }
    hold
}

// Whether its slots are those of its variables and of its parameter.
fn has_slots(alloc: Global) -> Result<bool, OutOfMemory> {
    let layout = thread_layout(alloc)?;
    let wanted = [
        ("variable", "kept", SlotRole::Kept),
        ("variable", "cleared", SlotRole::Cleared),
        ("parameter", "n", SlotRole::Kept),
    ];
    Ok(are(layout.slots.as_slice(), &wanted))
}

#[test]
fn lays_out_a_thread_program(rt: HostRuntime) {
    assert!(rt; has_slots(rt.alloc()) == Ok(true));
}

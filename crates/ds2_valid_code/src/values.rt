//! Whether each value of a program's parts is one that an object file can hold.
ghost use Rattle.std.specs.Prelude.{◌≡◌, true};
ghost use Rattle.std.specs.List.{list_all};
ghost use Rattle.std.specs.Option.{option_map_or};
ghost use Rattle.ds2_value.specs.Types.{in_bounds};
ghost use Rattle.ds2_value.specs.declared.schema.Column.{Column as ColumnModel};
ghost use Rattle.ds2_code.specs.declared.parts.HashPart.{HashPart as HashPartModel};
ghost use Rattle.ds2_code.specs.declared.parts.HashTable.{HashTable as HashTableModel};
ghost use Rattle.ds2_code.specs.declared.parts.OutputPart.{OutputPart as OutputPartModel};
ghost use Rattle.ds2_code.specs.declared.parts.ParameterPart.{ParameterPart as ParameterPartModel};
ghost use Rattle.ds2_code.specs.declared.parts.ReadPart.{ReadPart as ReadPartModel};
ghost use Rattle.ds2_code.specs.declared.parts.Slot.{Slot as SlotModel};
ghost use Rattle.ds2_token.specs.Words.{is_table_name};
ghost use Rattle.ds2_code.specs.ValidCode.{reference_allowed, is_char_type, constant_allowed, method_allowed, reading_allowed, values_allowed};

use ds2_base::Name;
use ds2_code::{
    Constant, HashPart, HashTable, MethodPart, OutputPart, ParameterPart, ProgramParts, ReadPart,
    ReadingPart, Slot, TableReference,
};
use ds2_token::is_table_name;
use ds2_value::{Column, Ty};

fn columns_in_bounds(columns: &[Column]) -> bool
    ensures { result ≡ list_all (λ (c : ColumnModel). in_bounds c.ty) columns.now }
{
    columns.iter().all(|column| column.ty.is_in_bounds())
}

// The name of a table.
fn names_table(name: &Name) -> bool
    ensures { result ≡ is_table_name name.now }
{
    is_table_name(name.as_str().as_bytes())
}

fn reference_allowed(reference: &TableReference) -> bool
    ensures { result ≡ reference_allowed reference.now }
{
    let named = names_table(&reference.name);
    named && columns_in_bounds(reference.columns.as_slice())
}

fn is_char(ty: Ty) -> bool
    ensures { result ≡ is_char_type ty }
{
    match ty {
        Ty::Char { .. } => true,
        Ty::BigInt | Ty::Decimal { .. } | Ty::Varchar { .. } => false,
    }
}

fn constant_allowed(constant: &Constant) -> bool
    ensures { result ≡ constant_allowed constant.now }
{
    if !constant.ty.is_in_bounds() {
        return false;
    }
    !is_char(constant.ty) && !constant.value.is_null() && constant.value.fits(constant.ty)
}

fn constants_allowed(constants: &[Constant]) -> bool
    ensures { result ≡ list_all constant_allowed constants.now }
{
    constants.iter().all(|constant| constant_allowed(constant))
}

fn slots_allowed(slots: &[Slot]) -> bool
    ensures { result ≡ list_all (λ (s : SlotModel). in_bounds s.ty) slots.now }
{
    slots.iter().all(|slot| slot.ty.is_in_bounds())
}

fn loaded_allowed(loaded: &Option<HashTable>) -> bool
    ensures { result ≡ option_map_or (λ (t : HashTableModel). reference_allowed t.table) loaded.now true }
{
    match loaded {
        None => true,
        Some(table) => reference_allowed(&table.table),
    }
}

fn hashes_allowed(hashes: &[HashPart]) -> bool
    ensures { result ≡ list_all (λ (h : HashPartModel). option_map_or (λ (t : HashTableModel). reference_allowed t.table) h.loaded true) hashes.now }
{
    hashes.iter().all(|hash| loaded_allowed(&hash.loaded))
}

fn parameters_allowed(parameters: &[ParameterPart]) -> bool
    ensures { result ≡ list_all (λ (p : ParameterPartModel). in_bounds p.ty) parameters.now }
{
    parameters
        .iter()
        .all(|parameter| parameter.ty.is_in_bounds())
}

fn types_allowed(types: &[Ty]) -> bool
    ensures { result ≡ list_all in_bounds types.now }
{
    types.iter().all(|ty| ty.is_in_bounds())
}

fn result_allowed(returns: Option<Ty>) -> bool
    ensures { result ≡ option_map_or in_bounds returns true }
{
    match returns {
        None => true,
        Some(ty) => ty.is_in_bounds(),
    }
}

fn method_allowed(method: &MethodPart) -> bool
    ensures { result ≡ method_allowed method.now }
{
    parameters_allowed(method.parameters.as_slice())
        && types_allowed(method.locals.as_slice())
        && result_allowed(method.returns)
}

fn methods_allowed(methods: &[MethodPart]) -> bool
    ensures { result ≡ list_all method_allowed methods.now }
{
    methods.iter().all(|method| method_allowed(method))
}

fn reads_allowed(reads: &[ReadPart]) -> bool
    ensures { result ≡ list_all (λ (r : ReadPartModel). reference_allowed r.table) reads.now }
{
    reads.iter().all(|read| reference_allowed(&read.table))
}

fn reading_allowed(reading: &ReadingPart) -> bool
    ensures { result ≡ reading_allowed reading.now }
{
    match reading {
        ReadingPart::Once => true,
        ReadingPart::Nothing => true,
        ReadingPart::Set { tables, .. } => reads_allowed(tables.as_slice()),
        ReadingPart::Merge { tables, .. } => reads_allowed(tables.as_slice()),
        ReadingPart::Stage { threads, .. } => 1 <= *threads && *threads <= 64,
    }
}

fn outputs_named(outputs: &[OutputPart]) -> bool
    ensures { result ≡ list_all (λ (o : OutputPartModel). is_table_name o.name) outputs.now }
{
    outputs.iter().all(|output| names_table(&output.name))
}

/// Whether each value is one that an object file can hold: types in bounds, constants of their types, names of tables.
pub fn values_are_allowed(code: &ProgramParts) -> bool
    ensures { result ≡ values_allowed code.now }
{
    slots_allowed(code.slots.as_slice())
        && constants_allowed(code.constants.as_slice())
        && hashes_allowed(code.hashes.as_slice())
        && methods_allowed(code.methods.as_slice())
        && reading_allowed(&code.reading)
        && outputs_named(code.outputs.as_slice())
}

//! How the code of a body reaches what it names.
ghost use Rattle.std.specs.Prelude.{◌≡◌, IfOk};
ghost use Rattle.ds2_meaning.specs.Evaluation.{callee_home};
ghost use Rattle.ds2_value.specs.declared.value.Value.TheVariants.{Txt};
ghost use Rattle.ds2_gen.specs.ExpressionCode.{CodeNumbers, constant_instr, load_instr, cell_of, store_instr, call_instr, object_cell, hash_instr, iterator_instr};
ghost use Rattle.ds2_gen.specs.StatementCode.{drop_code, text_type, label_of, load_kept as kept_loaded, store_kept as kept_stored, parameter_cell};
ghost use Rattle.ds2_emitter.specs.Dropped.{dropped_result};
ghost use Rattle.ds2_emitter.specs.declared.returning.Returning.{Returning as ReturningModel};

use crate::Returning;
use ds2_base::{Name, OutOfMemory, Text};
use ds2_code::Instr;
use ds2_meaning::Reference;
use ds2_value::{HashFunction, IteratorFunction, Ty, Value};

/// The instructions by which the code of a body reaches constants, variables, methods, hash objects and iterators. Each may want memory,
/// also where a number has more than 32 bits.
pub trait Numbering {
    /// What the code of the body finds fixed.
    ghost numbers: { Self → CodeNumbers };

    /// How its statements return.
    ghost way: { Self → ReturningModel };

    /// Pushes a constant of a type.
    fn constant(&self, value: &Value, ty: Ty) -> Result<Instr, OutOfMemory>
        ensures { IfOk result (λ i. i ≡ constant_instr (numbers self.now) value.now ty) };

    /// Pushes the value of a variable of a type.
    fn load(&self, variable: &Reference, ty: Ty) -> Result<Instr, OutOfMemory>
        ensures { IfOk result (λ i. i ≡ load_instr (cell_of (numbers self.now) variable.now) ty) };

    /// Pops a value into a variable.
    fn store(&self, variable: &Reference) -> Result<Instr, OutOfMemory>
        ensures { IfOk result (λ i. i ≡ store_instr (cell_of (numbers self.now) variable.now)) };

    /// Calls a method of an instance, or of the body's own unit.
    fn call(&self, instance: &Option<Name>, method: u32) -> Result<Instr, OutOfMemory>
        ensures { IfOk result (λ i. i ≡ call_instr (CodeNumbers.callee (numbers self.now) (callee_home (CodeNumbers.home (numbers self.now)) instance.now) method)) };

    /// Calls a hash object.
    fn hash_call(&self, hash: &Name, function: HashFunction) -> Result<Instr, OutOfMemory>
        ensures { IfOk result (λ i. i ≡ hash_instr (object_cell (numbers self.now) hash.now) function) };

    /// Calls an iterator.
    fn iterator_call(
        &self,
        iterator: &Name,
        function: IteratorFunction,
    ) -> Result<Instr, OutOfMemory>
        ensures { IfOk result (λ i. i ≡ iterator_instr (object_cell (numbers self.now) iterator.now) function) };

    /// How the statements of the body return.
    fn returning(&self) -> Returning
        ensures { result ≡ way self.now };

    /// Whether a call of a method leaves a result.
    fn has_result(&self, instance: &Option<Name>, method: u32) -> bool
        ensures { drop_code (CodeNumbers.callee (numbers self.now) (callee_home (CodeNumbers.home (numbers self.now)) instance.now) method) ≡ dropped_result result };

    /// Pushes a text constant.
    fn text(&self, text: &Text) -> Result<Instr, OutOfMemory>
        ensures { IfOk result (λ i. i ≡ constant_instr (numbers self.now) (Txt text.now) (text_type text.now)) };

    /// Pushes a name with an equals sign behind it, as it stands before a value in a line.
    fn label(&self, name: &Text) -> Result<Instr, OutOfMemory>
        ensures { IfOk result (λ i. i ≡ constant_instr (numbers self.now) (Txt (label_of name.now)) (text_type (label_of name.now))) };

    /// Pushes a kept value of a type.
    fn load_kept(&self, number: u32, ty: Ty) -> Result<Instr, OutOfMemory>
        ensures { IfOk result (λ i. i ≡ kept_loaded (numbers self.now) number ty) };

    /// Pops a value that is kept from now on.
    fn store_kept(&self, number: u32) -> Result<Instr, OutOfMemory>
        ensures { IfOk result (λ i. i ≡ kept_stored (numbers self.now) number) };

    /// Pops a value into a parameter of an instance of a thread program.
    fn store_parameter(&self, instance: &Name, parameter: &Name) -> Result<Instr, OutOfMemory>
        ensures { IfOk result (λ i. i ≡ store_instr (parameter_cell (numbers self.now) instance.now parameter.now)) };

    /// Pops a value into a local of the body.
    fn store_local(&self, local: &Name) -> Result<Instr, OutOfMemory>
        ensures { IfOk result (λ i. i ≡ store_instr (cell_of (numbers self.now) (Reference.Local local.now))) };

    /// Calls the constructor of an instance.
    fn construct(&self, instance: &Name, method: u32) -> Result<Instr, OutOfMemory>
        ensures { IfOk result (λ i. i ≡ call_instr (CodeNumbers.callee (numbers self.now) (Some instance.now) method)) };

    /// Whether the constructor of an instance leaves a result.
    fn constructor_has_result(&self, instance: &Name, method: u32) -> bool
        ensures { drop_code (CodeNumbers.callee (numbers self.now) (Some instance.now) method) ≡ dropped_result result };
}

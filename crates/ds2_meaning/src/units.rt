//! Typed units.

use crate::{
    Argument, DeclaredHash, DeclaredIterator, Method, OutputTable, Reading, Shared, SystemMethod,
    ThreadInstance, Variable,
};
use ds2_base::{List, Name, Place};
use std::alloc::Global;
use std::sync::Arc;

/// A unit of a source whose names and types fit.
#[derive(Drop)]
pub enum TypedUnit {
    /// A data program.
    Data(TypedData),
    /// A thread program.
    Thread(TypedThread),
    /// A package.
    Package(TypedPackage),
}

/// A data program whose names and types fit.
#[derive(Drop)]
pub struct TypedData {
    pub program: Program,
    /// The thread program that it reads from, where it reads from one.
    pub stage: Option<Shared<TypedThread>>,
}

/// A thread program whose names and types fit.
#[derive(Drop)]
pub struct TypedThread {
    pub name: Name,
    /// Its parameters, in order.
    pub parameters: List<Variable>,
    pub program: Program,
    /// The thread program that it reads from, where it reads from one.
    pub stage: Option<Arc<TypedThread, Global>>,
}

/// A package whose names and types fit.
#[derive(Drop)]
pub struct TypedPackage {
    pub name: Name,
    /// The variables that it declares, in order.
    pub variables: List<Variable>,
    pub hashes: List<DeclaredHash>,
    pub iterators: List<DeclaredIterator>,
    pub methods: List<Method>,
}

/// An instance of a package that a program declares.
#[derive(Drop)]
pub struct Instance {
    /// The place of its declaration.
    pub place: Place,
    pub name: Name,
    pub package: Shared<TypedPackage>,
    /// The number of the method of the package's name, which is called before `init`; None where the package has none.
    pub constructor: Option<u32>,
    /// The constants that the constructor is called with.
    pub arguments: List<Argument>,
}

/// What a data program and a thread program have in common.
#[derive(Drop)]
pub struct Program {
    /// The variables that it declares, in order.
    pub declared: List<Variable>,
    /// The columns of its reading statement that it does not declare, in order, with the types that all its tables join to.
    pub columns: List<Variable>,
    /// The names that `retain` lists.
    pub retained: List<Name>,
    pub instances: List<Instance>,
    pub hashes: List<DeclaredHash>,
    pub iterators: List<DeclaredIterator>,
    /// The instances of thread programs that it declares, those that it does not read from too.
    pub threads: List<ThreadInstance>,
    pub reading: Reading,
    pub outputs: List<OutputTable>,
    pub methods: List<Method>,
    pub init: Option<SystemMethod>,
    pub run: Option<SystemMethod>,
    pub term: Option<SystemMethod>,
}

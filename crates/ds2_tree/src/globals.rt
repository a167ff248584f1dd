//! Globals: declarations, lists of variables, and methods.
use crate::{Reading, Statement};
use ds2_base::{List, Place};
use ds2_token::Token;

/// `global = declare | ("retain" | "keep" | "drop") name { name } ";" | method`
#[derive(Drop)]
pub enum GlobalItem {
    /// `declare`
    Declaration(Declaration),
    /// `("retain" | "keep" | "drop") name { name } ";"`
    Listed {
        keyword: Token,
        names: List<Token>,
        end: Place,
    },
    /// `method`
    Method(Method),
}

/// `method = "method" name parameters [ "returns" type ] ";" { variables } [ reading ] { stmt } "end" ";"`
#[derive(Drop)]
pub struct Method {
    pub keyword: Token,
    pub name: Token,
    pub parameters: Parameters,
    pub returns: Option<Returns>,
    pub semicolon: Place,
    pub locals: List<VariableDeclaration>,
    pub reading: Option<Reading>,
    pub body: List<Statement>,
    pub end_keyword: Token,
    pub end: Place,
}

/// `"returns" type`
#[derive(Drop)]
pub struct Returns {
    pub keyword: Token,
    pub ty: TypeName,
}

/// `"(" [ param { "," param } ] ")"`
#[derive(Drop)]
pub struct Parameters {
    pub opening: Place,
    pub list: List<Parameter>,
    pub closing: Place,
}

/// `param = ["in_out"] type name`, behind its comma where it is not the first.
#[derive(Drop)]
pub struct Parameter {
    pub comma: Option<Place>,
    pub in_out: Option<Token>,
    pub ty: TypeName,
    pub name: Token,
}

/// A declaration. `keyword` is `dcl` or `declare`.
#[derive(Drop)]
pub enum Declaration {
    /// `dcl type name { name } ";"`
    Variables(VariableDeclaration),
    /// `dcl "package" pname name [ "(" [ const { "," const } ] ")" ] ";"`
    Instance {
        keyword: Token,
        package_keyword: Token,
        package: Token,
        name: Token,
        arguments: Option<Constants>,
        end: Place,
    },
    /// `dcl "package" "hash" name "(" vars "," vars [ "," integer [ "," text ] ] ")" ";"`
    Hash {
        keyword: Token,
        package_keyword: Token,
        hash_keyword: Token,
        name: Token,
        opening: Place,
        key_variables: Bracketed,
        comma: Place,
        data_variables: Bracketed,
        size: Option<HashSize>,
        closing: Place,
        end: Place,
    },
    /// `dcl "package" "hiter" name "(" text ")" ";"`
    Hiter {
        keyword: Token,
        package_keyword: Token,
        hiter_keyword: Token,
        name: Token,
        opening: Place,
        hash: Token,
        closing: Place,
        end: Place,
    },
    /// `dcl "thread" name name ";"`
    Thread {
        keyword: Token,
        thread_keyword: Token,
        thread: Token,
        name: Token,
        end: Place,
    },
}

/// `dcl type name { name } ";"`
#[derive(Drop)]
pub struct VariableDeclaration {
    pub keyword: Token,
    pub ty: TypeName,
    pub names: List<Token>,
    pub end: Place,
}

/// `"(" [ const { "," const } ] ")"`
#[derive(Drop)]
pub struct Constants {
    pub opening: Place,
    pub list: List<Constant>,
    pub closing: Place,
}

/// `const = ["-"] integer | ["-"] decimal | text | "null"`, behind its comma where it is not the first.
#[derive(Drop)]
pub struct Constant {
    pub comma: Option<Place>,
    pub minus: Option<Place>,
    pub value: Token,
}

/// `vars = "[" name { [","] name } "]"`
#[derive(Drop)]
pub struct Bracketed {
    pub opening: Place,
    pub names: List<BracketedName>,
    pub closing: Place,
}

/// A name of a list between brackets, behind its comma where it has one.
#[derive(Drop)]
pub struct BracketedName {
    pub comma: Option<Place>,
    pub name: Token,
}

/// `"," integer [ "," text ]`
#[derive(Drop)]
pub struct HashSize {
    pub comma: Place,
    pub number: Token,
    pub table: Option<HashTable>,
}

/// `"," text`
#[derive(Drop)]
pub struct HashTable {
    pub comma: Place,
    pub text: Token,
}

/// A type.
#[derive(Drop)]
pub enum TypeName {
    /// `"bigint"`
    BigInt(Token),
    /// `("decimal" | "numeric") "(" integer ["," integer] ")"`
    Decimal {
        keyword: Token,
        opening: Place,
        precision: Token,
        scale: Option<Scale>,
        closing: Place,
    },
    /// `("char" | "varchar") "(" integer ")"`
    Text {
        keyword: Token,
        opening: Place,
        length: Token,
        closing: Place,
    },
}

/// `"," integer`
#[derive(Drop)]
pub struct Scale {
    pub comma: Place,
    pub number: Token,
}

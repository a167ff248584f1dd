//! Reading statements.
use ds2_base::{List, Place};
use ds2_token::Token;

/// A reading statement.
#[derive(Drop)]
pub enum Reading {
    /// `"set" input { input } ";" [ by ]`
    Set {
        keyword: Token,
        inputs: List<Input>,
        end: Place,
        by: Option<By>,
    },
    /// `"set" "from" name [ "threads" "=" integer ] ";"`
    SetFrom {
        keyword: Token,
        from_keyword: Token,
        instance: Token,
        threads: Option<Threads>,
        end: Place,
    },
    /// `"merge" input { input } [ "/" "retain" ] ";" by`
    Merge {
        keyword: Token,
        inputs: List<Input>,
        retain: Option<MergeRetain>,
        end: Place,
        by: By,
    },
}

/// `input = table [ "(" "in" "=" name ")" ]`
#[derive(Drop)]
pub struct Input {
    pub table: Token,
    pub flag: Option<InputFlag>,
}

/// `"(" "in" "=" name ")"`
#[derive(Drop)]
pub struct InputFlag {
    pub opening: Place,
    pub keyword: Token,
    pub equals: Place,
    pub name: Token,
    pub closing: Place,
}

/// `"threads" "=" integer`
#[derive(Drop)]
pub struct Threads {
    pub keyword: Token,
    pub equals: Place,
    pub number: Token,
}

/// `"/" "retain"`
#[derive(Drop)]
pub struct MergeRetain {
    pub slash: Place,
    pub keyword: Token,
}

/// `by = "by" ["descending"] name { ["descending"] name } ";"`
#[derive(Drop)]
pub struct By {
    pub keyword: Token,
    pub variables: List<ByVariable>,
    pub end: Place,
}

/// `["descending"] name`
#[derive(Drop)]
pub struct ByVariable {
    pub descending: Option<Token>,
    pub name: Token,
}

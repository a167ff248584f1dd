//! Units of a source: packages, thread programs and data programs.
ghost use Rattle.std.specs.Prelude.{◌≡◌};
ghost use Rattle.ds2_tree.specs.PackageParts.{package_tokens};

use crate::{GlobalItem, Parameters};
use ds2_base::{List, Place};
use ds2_token::Token;

/// A part of a source.
#[derive(Drop)]
pub enum SourcePart {
    /// `"proc" "ds2" ";"`
    Proc {
        keyword: Token,
        ds2: Token,
        end: Place,
    },
    /// `"run" ";"`
    Run {
        keyword: Token,
        end: Place,
    },
    /// `"quit" ";"`
    Quit {
        keyword: Token,
        end: Place,
    },
    /// `package`
    Package(Package),
    /// `thread`
    Thread(Thread),
    /// `data`
    Data(DataProgram),
}

/// `package = "package" pname ";" { global } "endpackage" ";"`
#[derive(Drop)]
pub struct Package {
    pub keyword: Token,
    pub name: Token,
    pub semicolon: Place,
    pub globals: List<GlobalItem>,
    pub end_keyword: Token,
    pub end: Place,
    /// How many tokens it has, from `package` to the `;` behind `endpackage`.
    pub tokens: usize,
    pub ghost counted: { tokens ≡ package_tokens keyword name semicolon globals end_keyword end },
}

/// `thread = "thread" name [ parameters ] ";" { global } "endthread" ";"`
#[derive(Drop)]
pub struct Thread {
    pub keyword: Token,
    pub name: Token,
    pub parameters: Option<Parameters>,
    pub semicolon: Place,
    pub globals: List<GlobalItem>,
    pub end_keyword: Token,
    pub end: Place,
}

/// `data = "data" outp { outp } ";" { global } "enddata" ";"`
#[derive(Drop)]
pub struct DataProgram {
    pub keyword: Token,
    pub outputs: List<OutputTable>,
    pub semicolon: Place,
    pub globals: List<GlobalItem>,
    pub end_keyword: Token,
    pub end: Place,
}

/// `outp = table [ "(" { option } ")" ]`
#[derive(Drop)]
pub struct OutputTable {
    pub table: Token,
    pub options: Option<OutputOptions>,
}

/// `"(" { option } ")"`
#[derive(Drop)]
pub struct OutputOptions {
    pub opening: Place,
    pub list: List<OutputOption>,
    pub closing: Place,
}

/// An option of an output.
#[derive(Drop)]
pub enum OutputOption {
    /// `("keep" | "drop") "=" "(" name { name } ")"`
    Listed {
        keyword: Token,
        equals: Place,
        opening: Place,
        names: List<Token>,
        closing: Place,
    },
    /// `"overwrite" "=" ("yes" | "no")`
    Overwrite {
        keyword: Token,
        equals: Place,
        answer: Token,
    },
    /// `"rename" "=" "(" name "=" name { name "=" name } ")"`
    Rename {
        keyword: Token,
        equals: Place,
        opening: Place,
        renamings: List<Renaming>,
        closing: Place,
    },
}

/// `name "=" name`: the old name and the new one.
#[derive(Drop)]
pub struct Renaming {
    pub old: Token,
    pub equals: Place,
    pub new: Token,
}

impl SourcePart {
    ghost use Rattle.ds2_tree.specs.Lists.{BeginsAt};
    ghost use Rattle.ds2_tree.specs.Units.{part_spelling};
    ghost use Rattle.ds2_tree.specs.UnitViews.{part_tree};

    /// The place of its first token.
    pub fn place(&self) -> Place
        ensures { BeginsAt (part_spelling (part_tree self.now)) result }
    {
        match self {
            SourcePart::Proc { keyword, .. } => keyword.place,
            SourcePart::Run { keyword, .. } => keyword.place,
            SourcePart::Quit { keyword, .. } => keyword.place,
            SourcePart::Package(unit) => unit.keyword.place,
            SourcePart::Thread(unit) => unit.keyword.place,
            SourcePart::Data(unit) => unit.keyword.place,
        }
    }
}

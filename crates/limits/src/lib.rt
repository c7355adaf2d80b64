// The limits of records, names, values, sentences, nesting, levels and rooms, each named on the type that it bounds, with its test.
// FIXED, the deck and the meter have theirs on their own types.
#![tactic(auto)]

ghost use Rattle.std.specs.Prelude.{◌≡◌, leb};
ghost use Rattle.definition.specs.Limits.{member_sentences, entered_sentences, declared_names, open_parentheses, open_groups};
ghost use Rattle.definition.specs.Limits.{include_levels, replacement_levels, running_procedures, text_bytes, unfinished_bytes, program_text, program_list};
ghost use Rattle.limits.specs.Checked.{name_of, value_of};

use definition::Why;

// A record of a card image, by its columns: the source begins with the second.
#[derive(Clone, Copy)]
pub struct Record {
    pub columns: usize,
}

impl Record {
    pub const COLUMNS: usize = 80;

    pub const SOURCE: usize = 71;
}

// A name in a statement, by its length.
// stays: two types, as each constructor is under the definition's own limit and refusal; one with the limit as its parameter
// would promise them of no type
#[derive(Clone, Copy)]
pub struct Name {
    pub length: usize,
}

impl Name {
    pub const LONGEST: usize = 31;

    pub fn of(length: usize) -> Result<Name, Why>
        ensures { result ≡ name_of length }
    {
        if length <= Name::LONGEST {
            Ok(Name { length })
        } else {
            Err(Why::OverLimit)
        }
    }
}

// A CHARACTER or BIT value, by its length.
#[derive(Clone, Copy)]
pub struct Value {
    pub length: usize,
}

impl Value {
    pub const LONGEST: usize = 512;

    pub fn of(length: usize) -> Result<Value, Why>
        ensures { result ≡ value_of length }
    {
        if length <= Value::LONGEST {
            Ok(Value { length })
        } else {
            Err(Why::TooLong)
        }
    }
}

// How many sentences and procedure statements there are in a member, and in all members entered.
#[derive(Clone, Copy)]
pub struct Sentences {
    pub in_member: usize,
    pub entered: usize,
}

impl Sentences {
    pub const IN_MEMBER: usize = 1_024;

    pub const ENTERED: usize = 2_048;

    pub fn fit_member(self) -> bool
        ensures { result ≡ leb self.in_member member_sentences }
    {
        self.in_member <= Sentences::IN_MEMBER
    }

    pub fn fit_run(self) -> bool
        ensures { result ≡ leb self.entered entered_sentences }
    {
        self.entered <= Sentences::ENTERED
    }
}

// How many names are declared in the members entered.
#[derive(Clone, Copy)]
pub struct Names {
    pub declared: usize,
}

impl Names {
    pub const MOST: usize = 256;

    pub fn fit(self) -> bool
        ensures { result ≡ leb self.declared declared_names }
    {
        self.declared <= Names::MOST
    }
}

// What is open at a place: parentheses of an expression, groups and alternatives of a member.
#[derive(Clone, Copy)]
pub struct Nesting {
    pub parentheses: usize,
    pub groups: usize,
}

impl Nesting {
    pub const PARENTHESES: usize = 16;

    pub const GROUPS: usize = 16;

    pub fn fit_expression(self) -> bool
        ensures { result ≡ leb self.parentheses open_parentheses }
    {
        self.parentheses <= Nesting::PARENTHESES
    }

    pub fn fit_member(self) -> bool
        ensures { result ≡ leb self.groups open_groups }
    {
        self.groups <= Nesting::GROUPS
    }
}

// How deep a run stands: members included, replacements, procedures running.
#[derive(Clone, Copy)]
pub struct Levels {
    pub includes: usize,
    pub replacements: usize,
    pub procedures: usize,
}

impl Levels {
    pub const INCLUDES: usize = 8;

    pub const REPLACEMENTS: usize = 32;

    pub const PROCEDURES: usize = 16;

    pub fn fit_includes(self) -> bool
        ensures { result ≡ leb self.includes include_levels }
    {
        self.includes <= Levels::INCLUDES
    }

    pub fn fit_replacements(self) -> bool
        ensures { result ≡ leb self.replacements replacement_levels }
    {
        self.replacements <= Levels::REPLACEMENTS
    }

    pub fn fit_procedures(self) -> bool
        ensures { result ≡ leb self.procedures running_procedures }
    {
        self.procedures <= Levels::PROCEDURES
    }
}

// What the text room and the room of unfinished values hold, in bytes.
#[derive(Clone, Copy)]
pub struct Filling {
    pub text: usize,
    pub unfinished: usize,
}

impl Filling {
    pub const TEXT: usize = 4_294_967_295;

    pub const UNFINISHED: usize = 65_536;

    pub fn fits_text(self) -> bool
        ensures { result ≡ leb self.text text_bytes }
    {
        self.text <= Filling::TEXT
    }

    pub fn fits_unfinished(self) -> bool
        ensures { result ≡ leb self.unfinished unfinished_bytes }
    {
        self.unfinished <= Filling::UNFINISHED
    }
}

// The rooms that the program lends, in bytes.
#[derive(Clone, Copy)]
pub struct Rooms {
    pub text: usize,
    pub list: usize,
}

impl Rooms {
    pub const TEXT: usize = 65_536;

    pub const LIST: usize = 49_152;

    pub fn of_program() -> Rooms
        ensures { (result.text ≡ program_text) × (result.list ≡ program_list) }
    {
        Rooms {
            text: Rooms::TEXT,
            list: Rooms::LIST,
        }
    }
}

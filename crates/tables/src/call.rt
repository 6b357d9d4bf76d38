// The calls of a version table as values, so that a list of calls can be kept, shown and performed.
ghost use Rattle.std.specs.Prelude.{◌≡◌, Some};
ghost use Rattle.words.specs.Outcome.{told};
ghost use Rattle.tables.specs.Calls.{call_answer, Step, Reached, Strict};
ghost use Rattle.tables.specs.Shown.{call_shown, answer_shown};

use crate::table::VersionTable;
use std::fmt;
use words::{Ending, Refusal, Status, Version};

#[derive(Clone, Copy, Debug, PartialEq, Eq)]
pub enum TableCall {
    Clear,
    Cells,
    FreePlaces {
        cell: usize,
    },
    Length {
        cell: usize,
    },
    Version {
        cell: usize,
        at: usize,
    },
    Insert {
        cell: usize,
        stamp: u64,
        value: u64,
    },
    Raise {
        cell: usize,
        stamp: u64,
        to: u64,
    },
    Mark {
        cell: usize,
        stamp: u64,
        ending: Ending,
    },
    Cut {
        cell: usize,
        stamp: u64,
    },
}

// A call in words, as: insert in cell 17, stamp 1280, value 2850.
impl fmt::Display for TableCall {
    ghost output = { λ c. Some (call_shown c) };

    fn fmt<W: fmt::Write>(&self, f: &mut fmt::Formatter<W>) -> fmt::Result {
        match self {
            TableCall::Clear => write!(f, "clear"),
            TableCall::Cells => write!(f, "cells"),
            TableCall::FreePlaces { cell } => write!(f, "free places of cell {cell}"),
            TableCall::Length { cell } => write!(f, "length of cell {cell}"),
            TableCall::Version { cell, at } => write!(f, "version of cell {cell} at {at}"),
            TableCall::Insert { cell, stamp, value } => {
                write!(f, "insert in cell {cell}, stamp {stamp}, value {value}")
            }
            TableCall::Raise { cell, stamp, to } => {
                write!(f, "raise in cell {cell}, stamp {stamp}, to {to}")
            }
            TableCall::Mark {
                cell,
                stamp,
                ending,
            } => {
                let status = Status::from(*ending);
                write!(f, "mark in cell {cell}, stamp {stamp}, {status}")
            }
            TableCall::Cut { cell, stamp } => write!(f, "cut of cell {cell} at {stamp}"),
        }
    }
}

// What an accepted call answers: a number, or a version where one was asked for.
#[derive(Clone, Copy, Debug, PartialEq, Eq)]
pub enum Answer {
    Number(u64),
    Version(Version),
}

impl fmt::Display for Answer {
    ghost output = { λ a. Some (answer_shown a) };

    fn fmt<W: fmt::Write>(&self, f: &mut fmt::Formatter<W>) -> fmt::Result {
        match self {
            Answer::Number(n) => write!(f, "{n}"),
            Answer::Version(version) => write!(f, "{version}"),
        }
    }
}

// Performs one call on a table.
pub fn perform<T: VersionTable>(table: &mut T, call: TableCall) -> Result<Answer, Refusal>
    ensures answer { told result ≡ call_answer (T.meaning table.old) call }
    ensures after { Step (T.meaning table.old) call (T.meaning table.new) }
    ensures strict { Reached (T.meaning table.old) → Strict (T.meaning table.new) }
{
    dispatch(table, call)
}

// What a call does, but for the order of stamps that `perform` adds.
fn dispatch<T: VersionTable>(table: &mut T, call: TableCall) -> Result<Answer, Refusal>
    ensures answer { told result ≡ call_answer (T.meaning table.old) call }
    ensures after { Step (T.meaning table.old) call (T.meaning table.new) }
{
    match call {
        TableCall::Clear => Ok(Answer::Number(table.clear())),
        TableCall::Cells => Ok(Answer::Number(table.cells() as u64)),
        TableCall::FreePlaces { cell } => table.free_places(cell).map(Answer::Number),
        TableCall::Length { cell } => table.length(cell).map(Answer::Number),
        TableCall::Version { cell, at } => table.version(cell, at).map(Answer::Version),
        TableCall::Insert { cell, stamp, value } => {
            table.insert(cell, stamp, value).map(Answer::Number)
        }
        TableCall::Raise { cell, stamp, to } => table.raise(cell, stamp, to).map(Answer::Number),
        TableCall::Mark {
            cell,
            stamp,
            ending,
        } => table.mark(cell, stamp, ending).map(Answer::Number),
        TableCall::Cut { cell, stamp } => table.cut(cell, stamp).map(Answer::Number),
    }
}

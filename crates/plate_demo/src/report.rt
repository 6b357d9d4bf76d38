// One line for a call and its answer, one line for a cell's list.
ghost use Rattle.std.specs.Prelude.{Some};
ghost use Rattle.plate_demo.specs.Report.{told_shown};

use std::{fmt, io};
use tables::{Answer, VersionTable};
use words::Refusal;

// What a call came to: ok and the answer, or no and the refusal's number, detail and name.
#[derive(Clone, Copy, Debug, PartialEq, Eq)]
pub struct Told(pub Result<Answer, Refusal>);

impl fmt::Display for Told {
    ghost output = { λ t. Some (told_shown t.0) };

    fn fmt<W: fmt::Write>(&self, f: &mut fmt::Formatter<W>) -> fmt::Result {
        match self.0 {
            Ok(answer) => write!(f, "ok {answer}"),
            Err(refusal) => {
                let number = refusal.number();
                let detail = refusal.detail();
                write!(f, "no {number} {detail} {refusal}")
            }
        }
    }
}

// The list of a cell, newest first, and its free places; nothing where there is no such cell.
pub fn print_list<T: VersionTable>(rt: &HostRuntime, table: &T, cell: usize) -> io::Result<()> {
    let (Ok(length), Ok(free)) = (table.length(cell), table.free_places(cell)) else {
        return Ok(());
    };
    print!(rt; "      cell {cell}:")?;
    for at in 0..length as usize {
        if let Ok(version) = table.version(cell, at) {
            print!(rt; " {version}")?;
        }
    }
    println!(rt; ", {free} free")
}

// Files of an audit: their bytes decoded into postings and records, with the first refusal, its file and line.
// Rests on audit_input and posting for what is refused. Slices are lent; nothing past them is read.
#![tactic(auto)]

ghost use Rattle.std.specs.Prelude.{◌≡◌};

pub mod entries;
pub mod files;

// What a line says: nothing that can be read, a posting's number, or all its fields.
#[derive(Clone, Copy)]
pub enum Entry {
    Malformed,
    Number(u16),
    Whole {
        number: u16,
        kind: u8,
        a: u8,
        b: u8,
        amount: u32,
    },
}

impl Entry {
    ghost use Rattle.audit_files.specs.Entries.{number_in};

    // The posting's number, 0 of what cannot be read.
    pub fn number(self) -> u16
        ensures { result ≡ number_in self }
    {
        match self {
            Entry::Malformed => 0,
            Entry::Number(number) => number,
            Entry::Whole { number, .. } => number,
        }
    }
}

// A refusal, 0 for none, at a line of a file. A posting's number comes with it, and the line where that posting was read: 8 times the line, and the file.
#[derive(Drop)]
pub struct Refused {
    pub code: u8,
    pub file: usize,
    pub line: usize,
    pub number: usize,
    pub other: usize,
}

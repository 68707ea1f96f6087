// Names of symbols and variables, and lists of such names.
ghost use Rattle.std.specs.Prelude.{◌≡◌, [], ◌∷◌, ◌++◌, length, IfOk, OnOk, OnErr};

use std::alloc::{AllocError, Global};
use std::marker::Model;

/// The bytes of a symbol's or a variable's name; contracts see the list of the bytes. Up to sixteen take no allocation.
#[derive(Drop)]
pub struct Name {
    bytes: NameBytes,
}

// Where the bytes stand: the first of sixteen, or a place of their own.
#[derive(Drop)]
enum NameBytes {
    Short { bytes: [u8; 16], count: usize },
    Long(Vec<u8>),
}

impl Model for Name {
    ghost use Rattle.std.specs.Prelude.{ℕ, List};
    ghost use Rattle.fol_core.specs.NameView.{name_bytes, HasRoom};

    ghost Value = { List ℕ };

    ghost view = { λ a. name_bytes a.bytes };

    ghost invariant = { λ a. HasRoom a.bytes };
}

impl Name {
    /// The name of these bytes.
    pub fn new(bytes: Vec<u8>) -> Name
        ensures { result ≡ bytes.items }
    {
        Name {
            bytes: NameBytes::Long(bytes),
        }
    }

    /// The name of a copy of these bytes.
    pub fn from_slice(alloc: Global, bytes: &[u8]) -> Result<Name, AllocError>
        ensures { IfOk result (λ name. name ≡ bytes.now) }
    {
        let count = bytes.len();
        if count > 16 {
            return Ok(Name::new(Vec::from_slice(alloc, bytes)?));
        }
        let mut short = [0; 16];
        short[..count].copy_from_slice(bytes);
        Ok(Name {
            bytes: NameBytes::Short {
                bytes: short,
                count,
            },
        })
    }

    /// Its bytes.
    pub fn bytes(&self) -> &[u8]
        ensures { result.now ≡ self.now }
    {
        match &self.bytes {
            NameBytes::Short { bytes, count } => &bytes[..*count],
            NameBytes::Long(bytes) => bytes.as_slice(),
        }
    }
}

/// Names, one for each number from 0 on; contracts see the list. They stand in a place of their own, which most formulas,
/// having no variables, don't take.
#[derive(Drop)]
pub struct Names {
    list: Option<Box<Vec<Name>>>,
    alloc: Global,
}

impl Model for Names {
    ghost use Rattle.std.specs.Prelude.{ℕ, List};

    ghost Value = { List (List ℕ) };

    ghost use Rattle.std.specs.Prelude.{[]};
    ghost use Rattle.std.specs.Option.{option_map_or};

    ghost view = { λ a. option_map_or (λ names. names.value.items) a.list [] };
}

impl Names {
    /// An equal list.
    pub fn copy(&self, alloc: Global) -> Result<Names, AllocError>
        ensures { IfOk result (λ copy. copy ≡ self.now) }
    {
        let mut copies = Names::new(alloc);
        for name in self.as_slice() {
            copies.push(Name::from_slice(alloc, name.bytes())?)?;
        }
        Ok(copies)
    }

    /// No names.
    pub fn new(alloc: Global) -> Names
        ensures { result ≡ [] }
    {
        Names { list: None, alloc }
    }

    /// One more name, for the next number.
    pub fn push(&mut self, name: Name) -> Result<(), AllocError>
        ensures ok { OnOk result (self.new ≡ self.old ++ name ∷ []) }
        ensures err { OnErr result (self.new ≡ self.old) }
    {
        match &mut self.list {
            Some(names) => names.push(name)?,
            None => {
                let mut names = Vec::new(self.alloc);
                names.push(name)?;
                self.list = Some(Box::new(self.alloc, names)?);
            }
        }
        Ok(())
    }

    /// The names by number.
    pub fn as_slice(&self) -> &[Name]
        ensures { result.now ≡ self.now }
    {
        match &self.list {
            Some(names) => names.as_slice(),
            None => &[],
        }
    }

    /// How many there are.
    pub fn len(&self) -> usize
        ensures { result ≡ length self.now }
    {
        match &self.list {
            Some(names) => names.len(),
            None => 0,
        }
    }
}

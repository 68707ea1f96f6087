// Terms as they are read: by names, before symbols and variables are told apart.
ghost use Rattle.std.specs.Prelude.{◌≡◌, [], ◌∷◌, ◌++◌, length, OnOk, OnErr, IfOk};
ghost use Rattle.std.specs.Option.{option_map};
ghost use Rattle.fol_core.specs.RawView.{raw_of, raw_list};

use crate::name::Name;
use std::alloc::{AllocError, Global};
use std::marker::Model;

/// The word of a quantifier.
#[derive(Clone, Copy)]
pub enum Quantifier {
    All,
    Exists,
}

/// A term as read: an application of a name (an atom has no arguments), or a quantifier with its variable and body.
#[cycle(raw)]
#[derive(Drop)]
pub enum Raw {
    App(Name, Raws),
    Quant(Quantifier, Name, RawSub),
}

/// The arguments of an application; contracts see the list of their trees.
#[cycle(raw)]
#[derive(Drop)]
pub struct Raws {
    pub items: Vec<Raw>,
}

/// A term in a place of its own, as the body of a quantified term is; contracts see its tree.
#[cycle(raw)]
#[derive(Drop)]
pub struct RawSub {
    pub raw: Box<Raw>,
}

impl Model for Raws {
    ghost use Rattle.std.specs.Prelude.{List};
    ghost use Rattle.fol_core.specs.RawTree.{RawTree, raw_nodes_of_list};
    ghost use Rattle.fol_core.specs.RawCodes.{coded_raws};

    ghost Value = { List RawTree };

    ghost coded = { coded_raws };

    ghost use Rattle.fol_core.specs.RawView.{raw_list};

    ghost view = { λ a. raw_list a.items.items };

    ghost size = { raw_nodes_of_list };

    ghost use Rattle.fol_core.specs.RawFalls.{raws_fall};

    ghost size_decreases = { λ a h. raws_fall a.items.items };
}

impl Model for RawSub {
    ghost use Rattle.fol_core.specs.RawTree.{RawTree, raw_nodes};
    ghost use Rattle.fol_core.specs.RawCodes.{coded_raw};

    ghost Value = { RawTree };

    ghost coded = { coded_raw };

    ghost use Rattle.fol_core.specs.RawView.{raw_of};

    ghost view = { λ a. raw_of a.raw.value };

    ghost size = { raw_nodes };

    ghost use Rattle.fol_core.specs.RawFalls.{raw_falls};

    ghost size_decreases = { λ a h. raw_falls a.raw.value };
}

impl Raws {
    /// No arguments.
    pub fn new(alloc: Global) -> Raws
        ensures { result ≡ [] }
    {
        Raws {
            items: Vec::new(alloc),
        }
    }

    /// One more argument, at the end.
    pub fn push(&mut self, raw: Raw) -> Result<(), AllocError>
        ensures ok { OnOk result (self.new ≡ self.old ++ raw_of raw ∷ []) }
        ensures err { OnErr result (self.new ≡ self.old) }
    {
        self.items.push(raw)?;
        Ok(())
    }

    /// The arguments.
    pub fn as_slice(&self) -> &[Raw]
        ensures trees { raw_list result.now ≡ self.now }
        ensures len { length result.now ≡ length self.now }
    {
        self.items.as_slice()
    }

    /// How many there are.
    pub fn len(&self) -> usize
        ensures { result ≡ length self.now }
    {
        self.items.len()
    }

    /// The arguments by value.
    pub fn into_items(self) -> Vec<Raw>
        ensures { raw_list result.items ≡ self }
    {
        let Raws { items } = self;
        items
    }
}

impl RawSub {
    /// A term in a place of its own, where there is one.
    pub fn of(alloc: Global, raw: Option<Raw>) -> Result<Option<RawSub>, AllocError>
        ensures { IfOk result (λ sub. sub ≡ option_map raw_of raw) }
    {
        match raw {
            None => Ok(None),
            Some(raw) => Ok(Some(RawSub::new(alloc, raw)?)),
        }
    }

    /// The term as a body.
    pub fn new(alloc: Global, raw: Raw) -> Result<RawSub, AllocError>
        ensures { IfOk result (λ body. body ≡ raw_of raw) }
    {
        let raw = Box::new(alloc, raw)?;
        Ok(RawSub { raw })
    }

    /// The body.
    pub fn raw(&self) -> &Raw
        ensures { raw_of result.now ≡ self.now }
    {
        &self.raw
    }
}

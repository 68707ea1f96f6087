// Trees that are built as long as they have few levels.
ghost use Rattle.std.specs.Prelude.{◌≡◌, [], ◌∷◌, ◌++◌, Some, IfOk, OnOk, OnErr};
ghost use Rattle.std.specs.Option.{option_map};
ghost use Rattle.fol_core.specs.RawTree.{depth};
ghost use Rattle.fol_core.specs.RawView.{raw_of};
ghost use Rattle.ladr_reader.specs.Capped.{with_last_argument, application_within, quantification, is_one_argument};

use fol_core::{Name, Quantifier, Raw, RawSub, Raws};
use std::alloc::{AllocError, Global};
use std::marker::Model;

/// How trees are built: where, and with how many levels at most.
#[derive(Clone, Copy)]
pub struct Build {
    pub alloc: Global,
    pub most: u16,
}

/// A tree, or nothing in place of one with too many levels; contracts see just that.
#[derive(Drop)]
pub struct Capped {
    pub tree: Option<Raw>,
    pub levels: u16,
}

impl Model for Capped {
    ghost use Rattle.std.specs.Prelude.{Option};
    ghost use Rattle.std.specs.Coded.{coded_option};
    ghost use Rattle.fol_core.specs.RawCodes.{coded_raw};
    ghost use Rattle.fol_core.specs.RawTree.{RawTree};

    ghost Value = { Option RawTree };

    ghost coded = { coded_option coded_raw };

    ghost use Rattle.std.specs.Prelude.{◌≡◌};
    ghost use Rattle.std.specs.Option.{option_map, ForSome};
    ghost use Rattle.fol_core.specs.RawTree.{depth};
    ghost use Rattle.fol_core.specs.RawView.{raw_of};

    ghost view = { λ a. option_map raw_of a.tree };

    ghost invariant = { λ a. ForSome a.tree (λ t. depth (raw_of t) ≡ a.levels) };
}

/// The arguments of an application, or nothing where one has too many levels; contracts see just that.
#[derive(Drop)]
pub struct Arguments {
    pub trees: Option<Raws>,
    pub levels: u16,
}

impl Model for Arguments {
    ghost use Rattle.std.specs.Prelude.{Option, List};
    ghost use Rattle.std.specs.Coded.{coded_option};
    ghost use Rattle.fol_core.specs.RawCodes.{coded_raws};
    ghost use Rattle.fol_core.specs.RawTree.{RawTree};

    ghost Value = { Option (List RawTree) };

    ghost coded = { coded_option coded_raws };

    ghost use Rattle.std.specs.Prelude.{◌≡◌};
    ghost use Rattle.std.specs.Option.{ForSome};
    ghost use Rattle.fol_core.specs.RawTree.{depth_of, raws_of};

    ghost view = { λ a. a.trees };

    ghost invariant = { λ a. ForSome a.trees (λ ts. depth_of (raws_of ts) ≡ a.levels) };
}

impl Arguments {
    /// No arguments.
    #[inline(always)]
    pub fn new(alloc: Global) -> Arguments
        ensures { result ≡ Some [] }
    {
        Arguments {
            trees: Some(Raws::new(alloc)),
            levels: 0,
        }
    }

    /// Whether there is one.
    #[inline(always)]
    pub fn is_one(&self) -> bool
        ensures { result ≡ is_one_argument self.now }
    {
        match &self.trees {
            Some(trees) => trees.len() == 1,
            None => false,
        }
    }

    /// One more argument, at the end.
    pub fn push(&mut self, argument: Capped) -> Result<(), AllocError>
        ensures { IfOk result (λ _. self.new ≡ with_last_argument self.old argument) }
    {
        let Capped { tree, levels } = argument;
        match tree {
            Some(tree) => self.push_tree(tree, levels),
            None => {
                self.trees = None;
                Ok(())
            }
        }
    }

    /// One more tree of so many levels, at the end.
    #[tactic(auto, using(crate::proofs::Levels::depth_of_append))]
    #[inline(always)]
    pub fn push_tree(&mut self, tree: Raw, levels: u16) -> Result<(), AllocError>
        requires { depth (raw_of tree) ≡ levels }
        ensures { IfOk result (λ _. self.new ≡ with_last_argument self.old (Some (raw_of tree))) }
    {
        match &mut self.trees {
            None => Ok(()),
            Some(trees) => {
                add_tree(trees, tree)?;
                self.levels = self.levels.max(levels);
                Ok(())
            }
        }
    }
}

impl Capped {
    /// A name with arguments.
    #[inline(always)]
    pub fn application(build: Build, name: Name, arguments: Arguments) -> Capped
        ensures { result ≡ application_within build.most name arguments }
    {
        let Arguments { trees, levels } = arguments;
        match trees {
            Some(trees) if levels < build.most => Capped {
                tree: Some(Raw::App(name, trees)),
                levels: levels + 1,
            },
            _ => Capped::too_deep(),
        }
    }

    /// A quantifier with its variable and body.
    pub fn quantification(
        build: Build,
        quantifier: Quantifier,
        variable: Name,
        body: Capped,
    ) -> Result<Capped, AllocError>
        ensures { IfOk result (λ tree. tree ≡ quantification build.most quantifier variable body) }
    {
        let Capped { tree, levels } = body;
        match tree {
            Some(tree) if levels < build.most => {
                let body = RawSub::new(build.alloc, tree)?;
                Ok(Capped {
                    tree: Some(Raw::Quant(quantifier, variable, body)),
                    levels: levels + 1,
                })
            }
            _ => Ok(Capped::too_deep()),
        }
    }

    /// The tree, if it is there.
    #[inline(always)]
    pub fn into_tree(self) -> Option<Raw>
        ensures { option_map raw_of result ≡ self }
    {
        let Capped { tree, levels: _ } = self;
        tree
    }

    /// Nothing, in place of a tree with too many levels.
    pub fn too_deep() -> Capped
        ensures { result ≡ None }
    {
        Capped {
            tree: None,
            levels: 0,
        }
    }
}

// One more tree, at the end, with room for just that where there are few: most names have one or two arguments, and
// there may be millions of them.
#[tactic(auto, using(crate::proofs::Disjunctions::raws_append))]
#[inline(always)]
fn add_tree(trees: &mut Raws, tree: Raw) -> Result<(), AllocError>
    ensures ok { OnOk result (trees.new ≡ trees.old ++ raw_of tree ∷ []) }
    ensures err { OnErr result (trees.new ≡ trees.old) }
{
    if trees.items.len() < 4 {
        trees.items.reserve_exact(1)?;
    }
    trees.items.push(tree)?;
    Ok(())
}

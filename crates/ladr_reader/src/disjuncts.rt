// Terms as they are built: by the disjuncts of their right spine, so that a long disjunction is never a tree of as many levels.
ghost use Rattle.std.specs.Prelude.{◌≡◌, [], true, Some, None, IfOk};
ghost use Rattle.std.specs.Option.{option_map};
ghost use Rattle.fol_core.specs.RawTree.{named, no_raws};
ghost use Rattle.fol_core.specs.RawView.{raw_of, raw_list};
ghost use Rattle.ladr_reader.specs.Capped.{disjunction_tree, is_bar, is_one_argument, with_last_argument, single, whole_of, argument_in_front, finished, disjuncts_within, quantification, application_within};
ghost use Rattle.ladr_reader.specs.DisjunctView.{in_order};

use crate::capped::{Arguments, Build, Capped};
use fol_core::{Name, Quantifier, Raw, Raws};
use std::alloc::AllocError;
use std::marker::Model;
use std::mem;

/// A term by its disjuncts, or nothing where one has too many levels; contracts see just that.
#[derive(Drop)]
pub struct Disjuncts {
    // The last disjunct, and those before it, the last of them first.
    last: Option<Raw>,
    before: Raws,
    // The levels of the term, or the greatest number where there are more.
    levels: u32,
}

impl Model for Disjuncts {
    ghost use Rattle.std.specs.Prelude.{Option, List};
    ghost use Rattle.std.specs.Coded.{coded_option};
    ghost use Rattle.fol_core.specs.RawCodes.{coded_raws};
    ghost use Rattle.fol_core.specs.RawTree.{RawTree};

    ghost Value = { Option (List RawTree) };

    ghost coded = { coded_option coded_raws };

    ghost use Rattle.std.specs.Prelude.{◌≡◌, min};
    ghost use Rattle.std.specs.Option.{option_map, ForSome};
    ghost use Rattle.fol_core.specs.RawTree.{depth};
    ghost use Rattle.fol_core.specs.RawView.{raw_of};
    ghost use Rattle.ladr_reader.specs.DisjunctView.{in_order, levels_of};

    ghost view = { λ a. option_map (λ t. in_order a.before (raw_of t)) a.last };

    ghost invariant = { λ a.
        ForSome a.last (λ t. a.levels ≡ levels_of (in_order a.before (raw_of t))) };
}

impl Disjuncts {
    /// Nothing.
    pub fn none(build: Build) -> Disjuncts
        ensures { result ≡ None }
    {
        Disjuncts {
            last: None,
            before: Raws::new(build.alloc),
            levels: 0,
        }
    }

    /// A name without arguments takes the place of the term.
    pub fn set_atom(&mut self, build: Build, name: Name)
        ensures { self.new ≡ disjuncts_within build.most (named name no_raws) }
    {
        let none = Arguments::new(build.alloc);
        self.set_application(build, name, none);
    }

    /// A name with arguments, of which the last is this one.
    pub fn finish(
        &mut self,
        build: Build,
        name: Name,
        mut arguments: Arguments,
    ) -> Result<(), AllocError>
        ensures { IfOk result (λ _. self.new ≡ finished build.most name arguments self.old) }
    {
        if is_bar(name.bytes()) && arguments.is_one() {
            return self.put_behind(arguments);
        }
        self.move_behind(build, &mut arguments)?;
        self.set_application(build, name, arguments);
        Ok(())
    }

    /// A quantifier with its variable, of which this is the body.
    pub fn quantify(
        &mut self,
        build: Build,
        quantifier: Quantifier,
        variable: Name,
    ) -> Result<(), AllocError>
        ensures { IfOk result (λ _.
            self.new ≡ single (quantification build.most quantifier variable
            (whole_of build.most self.old))) }
    {
        let body = self.take_whole(build)?;
        self.set(
            build,
            Capped::quantification(build, quantifier, variable, body)?,
        );
        Ok(())
    }

    /// The tree of the term, taken out of it.
    pub fn take_whole(&mut self, build: Build) -> Result<Capped, AllocError>
        ensures { IfOk result (λ tree. tree ≡ whole_of build.most self.old) }
    {
        let levels = self.levels;
        match self.last.take() {
            Some(last) if levels <= u32::from(build.most) => {
                let tree = joined(build, &mut self.before, last)?;
                Ok(Capped {
                    tree: Some(tree),
                    levels: levels as u16,
                })
            }
            _ => Ok(Capped::too_deep()),
        }
    }

    /// The tree of the term, taken out of it and put behind arguments.
    #[inline(always)]
    pub fn move_behind(&mut self, build: Build, arguments: &mut Arguments) -> Result<(), AllocError>
        ensures { IfOk result (λ _. arguments.new
            ≡ with_last_argument arguments.old (whole_of build.most self.old)) }
    {
        let levels = self.levels;
        match self.last.take() {
            Some(last) if levels <= u32::from(build.most) => {
                let tree = joined(build, &mut self.before, last)?;
                arguments.push_tree(tree, levels as u16)
            }
            _ => {
                arguments.trees = None;
                Ok(())
            }
        }
    }

    // A name with arguments takes the place of the term.
    fn set_application(&mut self, build: Build, name: Name, arguments: Arguments)
        ensures { self.new ≡ single (application_within build.most name arguments) }
    {
        self.set(build, Capped::application(build, name, arguments));
    }

    // A tree takes the place of the term, as its only disjunct.
    #[inline(always)]
    fn set(&mut self, build: Build, tree: Capped)
        ensures { self.new ≡ single tree }
    {
        let Capped { tree, levels } = tree;
        self.last = tree;
        self.before = Raws::new(build.alloc);
        self.levels = u32::from(levels);
    }

    // The disjuncts behind another one, which is the argument.
    #[inline(never)]
    fn put_behind(&mut self, first: Arguments) -> Result<(), AllocError>
        requires { is_one_argument first ≡ true }
        ensures { IfOk result (λ _. self.new ≡ argument_in_front first self.old) }
    {
        let Arguments {
            trees,
            levels: first,
        } = first;
        match trees {
            None => self.last = None,
            Some(trees) => match trees.into_items().pop() {
                None => self.last = None,
                Some(tree) => {
                    self.before.push(tree)?;
                    self.levels = self.levels.max(u32::from(first)).saturating_add(1);
                }
            },
        }
        Ok(())
    }

    /// The disjuncts, if they are there.
    pub fn into_literals(self) -> Result<Option<Vec<Raw>>, AllocError>
        ensures { IfOk result (λ found. option_map (λ literals. raw_list literals.items) found
            ≡ self) }
    {
        let Disjuncts {
            last,
            before,
            levels: _,
        } = self;
        match last {
            Some(last) => {
                let mut literals = before.into_items();
                literals.reverse();
                literals.push(last)?;
                Ok(Some(literals))
            }
            None => Ok(None),
        }
    }
}

// The tree of disjuncts, which are mostly one: the last, and those before it, the last of them first.
#[inline(always)]
fn joined(build: Build, before: &mut Raws, last: Raw) -> Result<Raw, AllocError>
    ensures { IfOk result (λ tree. disjunction_tree (in_order before.old (raw_of last))
        ≡ Some (raw_of tree)) }
{
    if before.len() == 0 {
        return Ok(last);
    }
    let before = mem::replace(before, Raws::new(build.alloc));
    nested(build, before.into_items(), last)
}

// The tree of disjuncts: the last, and those before it, the last of them first.
#[inline(never)]
fn nested(build: Build, before: Vec<Raw>, last: Raw) -> Result<Raw, AllocError>
    ensures { IfOk result (λ tree. disjunction_tree (in_order (raw_list before.items) (raw_of last))
        ≡ Some (raw_of tree)) }
{
    let mut tree = last;
    for disjunct in before {
        let mut arguments = Raws::new(build.alloc);
        arguments.push(disjunct)?;
        arguments.push(tree)?;
        tree = Raw::App(Name::from_slice(build.alloc, b"|")?, arguments);
    }
    Ok(tree)
}

/// Whether the name is that of disjunctions.
pub fn is_bar(name: &[u8]) -> bool
    ensures { result ≡ is_bar name.now }
{
    name == b"|".as_slice()
}

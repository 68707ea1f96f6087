// What waits for more tokens.
ghost use Rattle.std.specs.Prelude.{◌≡◌, ℕ, ◌<◌, ◌≤◌, true, [], ◌∷◌, reverse, List, IfOk, MatchOption};
ghost use Rattle.std.specs.Option.{option_copied};
ghost use Rattle.ladr_reader.specs.Capped.{is_bar};
ghost use Rattle.ladr_reader.specs.Depths.{levels_around, one_more};
ghost use Rattle.ladr_reader.specs.Machine.{may_stand_on, last_is_closed};
ghost use Rattle.ladr_reader.specs.StackView.{frames_of, first_held};
ghost use Rattle.ladr_reader.specs.declared.stack.Frame.{Frame};

use crate::capped::{Arguments, Capped};
use crate::disjuncts::is_bar;
use crate::roles::Follow;
use crate::sides::Side;
use fol_core::{Name, Quantifier};
use std::alloc::{AllocError, Global};
use std::marker::Model;

/// What waits for its last argument: a prefix operator, an infix operator behind its left argument, or a quantifier
/// with its variable.
#[derive(Drop)]
pub enum Part {
    Prefix(Name),
    Infix(Name, Capped),
    Quantified(Quantifier, Name),
}

/// What waits: an open parenthesis, a name with the arguments so far, or a part with the side of its last argument and
/// the precedence of the term that it becomes.
#[derive(Drop)]
pub enum Frame {
    Group,
    Applied(Name, Arguments),
    Waiting(Part, Side, u16),
}

/// What waits, and how many open parentheses wait outside of it, up to what waits next.
#[derive(Drop)]
pub struct Held {
    pub frame: Frame,
    pub groups: usize,
}

/// All that waits; contracts see the list, the innermost first. Open parentheses are counted, since there may be millions.
#[derive(Drop)]
pub struct Stack {
    // What waits and is no open parenthesis, the innermost last.
    held: Vec<Held>,
    // How many open parentheses wait inside of all that.
    groups: usize,
    // How many levels are around what stands inside of all that, at least: of a tree, and of its disjuncts.
    tree_levels: u32,
    literal_levels: u32,
}

impl Model for Stack {
    ghost use Rattle.std.specs.Prelude.{List, reverse};
    ghost use Rattle.ladr_reader.specs.declared.stack.Frame.{Frame};

    ghost Value = { List Frame };

    ghost use Rattle.std.specs.Coded.{codes};
    ghost use Rattle.ladr_reader.specs.contracts.stack.Frame as frame;

    ghost coded = { Prim.hlevel (codes, frame.the_row.coded) };

    ghost use Rattle.ladr_reader.specs.StackView.{in_groups, frames_of};

    ghost view = { λ a. in_groups a.groups (frames_of (reverse a.held.items)) };

    ghost use Rattle.std.specs.Prelude.{◌≤◌, true, false};
    ghost use Rattle.ladr_reader.specs.Depths.{levels_around};

    ghost invariant = { λ a.
        (a.tree_levels ≤ levels_around false (in_groups a.groups (frames_of (reverse a.held.items))))
        × (a.literal_levels ≤ levels_around true (in_groups a.groups (frames_of (reverse a.held.items)))) };
}

impl Stack {
    /// Nothing waits.
    pub fn new(alloc: Global) -> Stack
        ensures { result ≡ [] }
    {
        Stack {
            held: Vec::new(alloc),
            groups: 0,
            tree_levels: 0,
            literal_levels: 0,
        }
    }

    /// Whether there are surely more levels than this around what stands inside of all that waits, if it is a tree, or if
    /// it is disjuncts.
    pub fn is_deeper_than(&self, most: u16, literals: bool) -> bool
        ensures { result ≡ true → most < levels_around literals self.now }
    {
        let levels = if literals {
            self.literal_levels
        } else {
            self.tree_levels
        };
        levels > u32::from(most)
    }

    /// One more frame, the innermost.
    #[inline(always)]
    pub fn push(&mut self, frame: Frame) -> Result<(), AllocError>
        ensures { IfOk result (λ _. self.new ≡ frame ∷ self.old) }
    {
        match frame {
            Frame::Group if self.groups < usize::MAX => {
                self.groups += 1;
                Ok(())
            }
            frame => {
                let groups = self.groups;
                let tree_levels = frame.levels_inside(self.tree_levels, false);
                let literal_levels = frame.levels_inside(self.literal_levels, true);
                self.held.push(Held { frame, groups })?;
                self.groups = 0;
                self.tree_levels = tree_levels;
                self.literal_levels = literal_levels;
                Ok(())
            }
        }
    }

    /// Whether a term of precedence `own` may stand on top of what waits.
    #[inline(always)]
    pub fn allows(&self, own: u16, growing: bool) -> bool
        ensures { result ≡ may_stand_on self.now own growing }
    {
        if self.groups > 0 {
            return true;
        }
        allows(&self.held, own, growing)
    }

    /// Whether the token ends the last argument of what is innermost.
    #[inline(always)]
    pub fn is_closed_by(&self, follow: &Follow) -> bool
        ensures { result ≡ last_is_closed follow.now self.now }
    {
        if self.groups > 0 {
            return false;
        }
        is_closed_by(&self.held, follow)
    }

    /// The innermost frame, taken off.
    #[inline(always)]
    pub fn pop(&mut self) -> Option<Frame>
        ensures { MatchOption result ((self.old ≡ []) × (self.new ≡ []))
            (λ frame. self.old ≡ frame ∷ self.new) }
    {
        if self.groups > 0 {
            self.groups -= 1;
            return Some(Frame::Group);
        }
        let innermost = self.held.pop();
        give_back(&mut self.held);
        match innermost {
            Some(Held { frame, groups }) => {
                self.groups = groups;
                self.tree_levels = self.tree_levels.saturating_sub(1);
                self.literal_levels = self.literal_levels.saturating_sub(1);
                Some(frame)
            }
            None => None,
        }
    }
}

// Gives back room that isn't needed any more, since what a long clause becomes needs it.
#[inline(never)]
fn give_back(held: &mut Vec<Held>)
    ensures { held.new.items ≡ held.old.items }
{
    let room = held.capacity();
    if room > 65_536 && held.len() == room / 2 {
        held.shrink_to(room / 2 + room / 8);
    }
}

impl Frame {
    // The levels around what stands inside of it, where there are so many around it, at least.
    #[inline(always)]
    fn levels_inside(&self, around: u32, literals: bool) -> u32
        ensures { (outside : List Frame) → around ≤ levels_around literals outside →
            result ≤ levels_around literals (self.now ∷ outside) }
    {
        match self {
            Frame::Group => around,
            Frame::Applied(name, _) | Frame::Waiting(Part::Infix(name, _), _, _) => {
                one_level_more(around, literals, name.bytes())
            }
            Frame::Waiting(Part::Prefix(_) | Part::Quantified(_, _), _, _) => {
                around.saturating_add(1)
            }
        }
    }

    // Whether a term of precedence `own` may stand on top of it.
    #[inline(always)]
    fn allows(&self, own: u16, growing: bool) -> bool
        ensures { (outside : List Frame) → result ≡ may_stand_on (self.now ∷ outside) own growing }
    {
        match self {
            Frame::Waiting(_, side, limit) => side.ends(*limit, own, growing),
            Frame::Group | Frame::Applied(_, _) => true,
        }
    }

    // Whether the token ends its last argument.
    #[inline(always)]
    fn is_closed_by(&self, follow: &Follow) -> bool
        ensures { (outside : List Frame) → result ≡ last_is_closed follow.now (self.now ∷ outside) }
    {
        match self {
            Frame::Waiting(_, _, own) => follow.closes(*own),
            Frame::Group | Frame::Applied(_, _) => false,
        }
    }
}

// The levels inside of a name's term, which is a disjunction where the name is `|`.
fn one_level_more(around: u32, literals: bool, name: &[u8]) -> u32
    ensures { (levels : ℕ) → around ≤ levels → result ≤ one_more literals (is_bar name.now) levels }
{
    if literals && around == 0 && is_bar(name) {
        0
    } else {
        around.saturating_add(1)
    }
}

// Whether a term of precedence `own` may stand on top of what is held.
#[inline(always)]
fn allows(held: &[Held], own: u16, growing: bool) -> bool
    ensures { result ≡ may_stand_on (frames_of (reverse held.now)) own growing }
{
    match innermost(held) {
        Some(held) => held.frame.allows(own, growing),
        None => true,
    }
}

// Whether the token ends the last argument of what is held innermost.
#[inline(always)]
fn is_closed_by(held: &[Held], follow: &Follow) -> bool
    ensures { result ≡ last_is_closed follow.now (frames_of (reverse held.now)) }
{
    match innermost(held) {
        Some(held) => held.frame.is_closed_by(follow),
        None => false,
    }
}

fn innermost(held: &[Held]) -> Option<&Held>
    ensures { option_copied result ≡ first_held (reverse held.now) }
{
    held.last()
}

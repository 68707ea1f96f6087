// One item.
ghost use Rattle.std.specs.Prelude.{◌≡◌, [], OnOk, IfErr, None, Some, Ok};
ghost use Rattle.fol_core.specs.RawView.{raw_of};
ghost use Rattle.ladr_lex.specs.Lexeme.{lexemes_of};
ghost use Rattle.ladr_problem.specs.Adding.{is_tester, after_term, IsItemRefused};
ghost use Rattle.ladr_problem.specs.Draft.{sofar_of};
ghost use Rattle.ladr_problem.specs.Reading.{IsKept, IsNo, IsTaken};

use crate::draft::Draft;
use crate::item::ListItem;
use crate::list_items::read_list_item;
use crate::refusal::Refusal;
use fol_core::Raw;
use ladr_commands::read_command;
use ladr_formulas::Mode;
use ladr_lex::Token;
use ladr_settings::OpenList;
use std::alloc::Global;

fn is_tester(program: Mode) -> bool
    ensures { result ≡ is_tester program }
{
    match program {
        Mode::Prover | Mode::Mace => false,
        Mode::Tester => true,
    }
}

// How many tokens have room between two items.
const ROOM: usize = 4096;

// The tokens are gone; where they took much room it is given back.
fn give_back(alloc: Global, tokens: &mut Vec<Token>)
    ensures { tokens.new.items ≡ [] }
{
    if tokens.len() > ROOM {
        *tokens = Vec::new(alloc);
    } else {
        tokens.clear();
    }
}

impl Draft {
    /// Takes an item that begins at a byte. Its tokens may be gone then, but for those of an item that can't be read.
    pub fn take(
        &mut self,
        alloc: Global,
        program: Mode,
        byte: u64,
        tokens: &mut Vec<Token>,
    ) -> Result<(), Refusal>
        ensures ok { OnOk result (IsTaken program byte (sofar_of self.old)
            (lexemes_of tokens.old.items) (sofar_of self.new)) }
        ensures refused { IfErr result (IsItemRefused program byte (sofar_of self.old)
            (lexemes_of tokens.old.items)) }
        ensures bad { IfErr result (IsKept tokens.old.items tokens.new.items) }
    {
        match self.settings.list {
            None => self.take_command(alloc, program, byte, tokens),
            Some(list) => self.take_listed(alloc, program, list, byte, tokens),
        }
    }

    // Takes an item that stands outside lists.
    fn take_command(
        &mut self,
        alloc: Global,
        program: Mode,
        byte: u64,
        tokens: &[Token],
    ) -> Result<(), Refusal>
        requires { self.old.settings.list ≡ None }
        ensures ok { OnOk result (IsTaken program byte (sofar_of self.old) (lexemes_of tokens.now)
            (sofar_of self.new)) }
        ensures refused { IfErr result (IsItemRefused program byte (sofar_of self.old)
            (lexemes_of tokens.now)) }
    {
        let command = read_command(alloc, is_tester(program), tokens)?;
        self.settings.take(alloc, program, command)?;
        Ok(())
    }

    // Takes an item that stands in a list.
    fn take_listed(
        &mut self,
        alloc: Global,
        program: Mode,
        list: OpenList,
        byte: u64,
        tokens: &mut Vec<Token>,
    ) -> Result<(), Refusal>
        requires { self.old.settings.list ≡ Some list }
        ensures ok { OnOk result (IsTaken program byte (sofar_of self.old)
            (lexemes_of tokens.old.items) (sofar_of self.new)) }
        ensures refused { IfErr result (IsItemRefused program byte (sofar_of self.old)
            (lexemes_of tokens.old.items)) }
        ensures bad { IfErr result (IsKept tokens.old.items tokens.new.items) }
    {
        match read_list_item(alloc, &self.settings.operators, list, tokens)? {
            ListItem::End => {
                self.settings.list = None;
                Ok(())
            }
            ListItem::Term(raw) => {
                give_back(alloc, tokens);
                self.take_term(alloc, program, list, byte, raw)
            }
            ListItem::Names(names) => {
                give_back(alloc, tokens);
                self.take_names(alloc, program, byte, &names)
            }
        }
    }

    // Takes a term that stands in a list.
    fn take_term(
        &mut self,
        alloc: Global,
        program: Mode,
        list: OpenList,
        byte: u64,
        raw: Raw,
    ) -> Result<(), Refusal>
        ensures ok { OnOk result (after_term program list byte (sofar_of self.old) (raw_of raw)
            ≡ Ok (sofar_of self.new)) }
        ensures refused { IfErr result (IsNo (after_term program list byte (sofar_of self.old)
            (raw_of raw))) }
    {
        match list {
            OpenList::Formulas(list) => self.take_formula(alloc, program, Some(list), byte, raw),
            OpenList::OtherFormulas => self.take_formula(alloc, program, None, byte, raw),
            OpenList::Weights => self.take_weight(alloc, program, &raw),
            OpenList::KboWeights => self.take_kbo_weight(alloc, program, &raw),
            OpenList::Distinct | OpenList::OtherRules => Ok(()),
        }
    }
}

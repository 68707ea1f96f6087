// The settings of a program, and what a command makes of them.
ghost use Rattle.std.specs.Prelude.{◌≡◌, ℕ, OnOk, IfOk, Ok, Err};
ghost use Rattle.std.specs.Option.{option_map_or};
ghost use Rattle.ladr_lex.specs.declared.misuse.Misuse.{Misuse};
ghost use Rattle.ladr_options.specs.Options.{is_among};
ghost use Rattle.ladr_settings.specs.Settings.{is_for, kept_back, is_meant, settings_after, after_meant, after_other, after_flag, after_value, after_operators, after_order, after_opening, after_if, after_end_if, after_interpretation, parameter_misuse, at_start};
ghost use Rattle.ladr_settings.specs.declared.settings.SettingsError.TheVariants.{Misused, Memory};

use crate::lists::OpenList;
use crate::symbols::{declare_all, order_of};
use fol_core::{Name, NameOrder, Names};
use ladr_commands::{ByName, Command, Value};
use ladr_formulas::Mode;
use ladr_interpretations::{Interpretations, Named, NamedError};
use ladr_lex::{DeclareError, Misuse, Ops};
use ladr_options::{OptionError, Options};
use std::alloc::{AllocError, Global};

/// Why a command changes no settings: how it is misused, by the least row, or want of memory.
#[derive(Clone, Copy)]
pub enum SettingsError {
    Misused(Misuse),
    Memory,
}

impl From<AllocError> for SettingsError {
    ghost from_gives = { λ _ e. e ≡ Memory };

    fn from(_e: AllocError) -> SettingsError {
        SettingsError::Memory
    }
}

/// What the commands so far have set.
#[derive(Drop)]
pub struct Settings {
    pub operators: Ops,
    pub options: Options,
    pub function_order: NameOrder,
    /// The name of the program that the items are for, inside `if`.
    pub block: Option<Name>,
    /// The list that is open.
    pub list: Option<OpenList>,
    /// Whether a list for this program was opened.
    pub listed: bool,
    pub interpretations: Interpretations,
}

impl Settings {
    /// The settings at the start.
    pub fn start(alloc: Global) -> Result<Settings, AllocError>
        ensures { IfOk result (λ s. s ≡ at_start) }
    {
        Ok(Settings {
            operators: Ops::standard(alloc)?,
            options: Options::start(),
            function_order: NameOrder::new(alloc),
            block: None,
            list: None,
            listed: false,
            interpretations: Interpretations::new(alloc),
        })
    }

    /// Whether the items that follow are meant for a program.
    pub fn is_meant(&self, program: Mode) -> bool
        ensures { result ≡ is_meant program self.now }
    {
        match &self.block {
            None => true,
            Some(name) => is_for(program, name.bytes()),
        }
    }

    /// Takes a command.
    pub fn take(
        &mut self,
        alloc: Global,
        program: Mode,
        command: Command,
    ) -> Result<(), SettingsError>
        ensures ok { OnOk result (settings_after program command self.old ≡ Ok self.new) }
        ensures row { (m : Misuse) → result ≡ Err (Misused m)
            → settings_after program command self.old ≡ Err m }
    {
        if self.is_meant(program) {
            self.take_meant(alloc, command)
        } else {
            self.pass(command);
            Ok(())
        }
    }

    // A command that is meant for the program.
    fn take_meant(&mut self, alloc: Global, command: Command) -> Result<(), SettingsError>
        ensures ok { OnOk result (after_meant command self.old ≡ Ok self.new) }
        ensures row { (m : Misuse) → result ≡ Err (Misused m)
            → after_meant command self.old ≡ Err m }
    {
        match command {
            Command::Flag(on, name) => self.change_flag(on, name.bytes()),
            Command::Assign(name, value) => self.assign(name.bytes(), &value),
            Command::Op(precedence, type_name, names) => {
                self.declare(precedence, type_name.bytes(), &names)
            }
            Command::FunctionOrder(names) => self.order(alloc, &names),
            Command::PredicateOrder(_) => Ok(()),
            Command::Formulas(name) => self.open(OpenList::formulas(name.bytes())),
            Command::List(name) => self.open(OpenList::rules(name.bytes())),
            Command::If(name) => self.begin_block(name),
            Command::EndIf => self.end_block(),
            Command::Interpretation(read) => self.interpret(alloc, read),
        }
    }

    // A command that isn't.
    fn pass(&mut self, command: Command)
        ensures { self.new ≡ after_other command self.old }
    {
        match command {
            Command::Formulas(name) => self.list = Some(OpenList::formulas(name.bytes())),
            Command::List(name) => self.list = Some(OpenList::rules(name.bytes())),
            Command::EndIf => self.block = None,
            _ => {}
        }
    }

    fn change_flag(&mut self, on: bool, name: &[u8]) -> Result<(), SettingsError>
        ensures ok { OnOk result (after_flag on name.now self.old ≡ Ok self.new) }
        ensures row { (m : Misuse) → result ≡ Err (Misused m)
            → after_flag on name.now self.old ≡ Err m }
    {
        if name == b"prolog_style_variables".as_slice() && self.listed {
            return Err(SettingsError::Misused(Misuse::TooLate));
        }
        match self.options.change_flag(name, on) {
            Ok(()) => Ok(()),
            Err(_) => Err(SettingsError::Misused(Misuse::UnknownFlag)),
        }
    }

    fn assign(&mut self, name: &[u8], value: &Value) -> Result<(), SettingsError>
        ensures ok { OnOk result (after_value name.now value.now self.old ≡ Ok self.new) }
        ensures row { (m : Misuse) → result ≡ Err (Misused m)
            → after_value name.now value.now self.old ≡ Err m }
    {
        if is_kept_back(name) {
            return Err(SettingsError::Misused(Misuse::UnknownParameter));
        }
        let assigned = match value {
            Value::Symbol(text) => self.options.assign_symbol(name, text.bytes()),
            Value::Number(negative, size) => self.options.assign_number(name, *negative, *size),
        };
        match assigned {
            Ok(()) => Ok(()),
            Err(error) => Err(SettingsError::Misused(parameter_misuse(error))),
        }
    }

    fn declare(
        &mut self,
        precedence: u32,
        type_name: &[u8],
        names: &Names,
    ) -> Result<(), SettingsError>
        ensures ok { OnOk result (after_operators precedence type_name.now names.now self.old
            ≡ Ok self.new) }
        ensures row { (m : Misuse) → result ≡ Err (Misused m)
            → after_operators precedence type_name.now names.now self.old ≡ Err m }
    {
        match declare_all(&mut self.operators, precedence, type_name, names.as_slice()) {
            Ok(()) => {}
            Err(DeclareError::Memory) => return Err(SettingsError::Memory),
            Err(DeclareError::UnfitOperator) => return Err(SettingsError::Misused(
                Misuse::UnfitOperator,
            )),
            Err(DeclareError::UnfitSymbol) => return Err(SettingsError::Misused(
                Misuse::UnfitSymbol,
            )),
        }
        if self.listed {
            return Err(SettingsError::Misused(Misuse::TooLate));
        }
        Ok(())
    }

    fn order(&mut self, alloc: Global, names: &Names) -> Result<(), SettingsError>
        ensures ok { OnOk result (after_order names.now self.old ≡ Ok self.new) }
        ensures row { (m : Misuse) → result ≡ Err (Misused m)
            → after_order names.now self.old ≡ Err m }
    {
        match order_of(alloc, names.as_slice())? {
            Some(order) => {
                self.function_order = order;
                Ok(())
            }
            None => Err(SettingsError::Misused(Misuse::UnfitRule)),
        }
    }

    fn open(&mut self, list: OpenList) -> Result<(), SettingsError>
        ensures ok { OnOk result (after_opening list self.old ≡ Ok self.new) }
        ensures row { (m : Misuse) → result ≡ Err (Misused m)
            → after_opening list self.old ≡ Err m }
    {
        if list.is_other() {
            return Err(SettingsError::Misused(Misuse::UnknownList));
        }
        self.list = Some(list);
        self.listed = true;
        Ok(())
    }

    fn begin_block(&mut self, name: Name) -> Result<(), SettingsError>
        ensures ok { OnOk result (after_if name self.old ≡ Ok self.new) }
        ensures row { (m : Misuse) → result ≡ Err (Misused m) → after_if name self.old ≡ Err m }
    {
        if self.block.is_some() {
            return Err(SettingsError::Misused(Misuse::UnmatchedIf));
        }
        self.block = Some(name);
        Ok(())
    }

    fn end_block(&mut self) -> Result<(), SettingsError>
        ensures ok { OnOk result (after_end_if self.old ≡ Ok self.new) }
        ensures row { (m : Misuse) → result ≡ Err (Misused m) → after_end_if self.old ≡ Err m }
    {
        if self.block.is_none() {
            return Err(SettingsError::Misused(Misuse::UnmatchedIf));
        }
        self.block = None;
        Ok(())
    }

    fn interpret(&mut self, alloc: Global, read: ByName) -> Result<(), SettingsError>
        ensures ok { OnOk result (after_interpretation read self.old ≡ Ok self.new) }
        ensures row { (m : Misuse) → result ≡ Err (Misused m)
            → after_interpretation read self.old ≡ Err m }
    {
        match Named::new(alloc, read) {
            Ok(named) => {
                self.interpretations.push(named)?;
                Ok(())
            }
            Err(NamedError::Bad) => Err(SettingsError::Misused(Misuse::UnfitInterpretation)),
            Err(NamedError::Memory) => Err(SettingsError::Memory),
        }
    }
}

// Whether no file sets the parameter of a name yet.
fn is_kept_back(name: &[u8]) -> bool
    ensures { result ≡ is_among kept_back name.now }
{
    name == b"proof_format".as_slice() || name == b"eval_limit".as_slice()
}

// Whether the items behind `if` of a name are for a program.
fn is_for(program: Mode, name: &[u8]) -> bool
    ensures { result ≡ is_for program name.now }
{
    match program {
        Mode::Prover => name == b"Prover9".as_slice(),
        Mode::Mace => name == b"Mace4".as_slice(),
        Mode::Tester => false,
    }
}

fn parameter_misuse(error: OptionError) -> Misuse
    ensures { result ≡ parameter_misuse error }
{
    match error {
        OptionError::Unknown => Misuse::UnknownParameter,
        OptionError::NotAValue => Misuse::UnfitValue,
    }
}

// The options of an input.
ghost use Rattle.std.specs.Prelude.{◌≡◌, OnOk, IfErr, Ok, Err};
ghost use Rattle.ladr_options.specs.Options.{start, with_flag, with_value, stored, allows, flagged, numbered, symbolized, ordered, order_named, takes_symbols};
ghost use Rattle.std.specs.Option.{option_map_or};
ghost use Rattle.ladr_options.specs.declared.names.Parameter.TheVariants.{PickGivenRatio};
ghost use Rattle.ladr_options.specs.declared.options.OptionError.TheVariants.{NotAValue};

use crate::names::{Flag, Parameter, flag_named, is_idle_flag, is_idle_parameter, parameter_named};

/// An order of terms.
#[derive(Clone, Copy)]
pub enum Order {
    Lpo,
    Kbo,
}

/// Why an option isn't changed: there is none of this name, or the value isn't one of its values.
#[derive(Clone, Copy)]
pub enum OptionError {
    Unknown,
    NotAValue,
}

/// The value that -1 stands as: there is no limit.
pub const NO_LIMIT: u32 = 4_294_967_295;

/// The options that have an effect, each under its name in the language.
#[derive(Clone, Copy)]
pub struct Options {
    pub auto: bool,
    pub unit_deletion: bool,
    pub back_subsume: bool,
    pub back_demod: bool,
    pub lnh: bool,
    pub binary_resolution: bool,
    pub hyper_resolution: bool,
    pub ur_resolution: bool,
    pub factor: bool,
    pub paramodulation: bool,
    pub prolog_style_variables: bool,
    pub order: Order,
    pub max_weight: u32,
    pub sos_limit: u32,
    pub max_given: u32,
    pub max_kept: u32,
    pub max_seconds: u32,
    pub max_megs: u32,
    pub max_proofs: u32,
    pub max_models: u32,
    pub demod_step_limit: u32,
    pub age_part: u32,
    pub weight_part: u32,
    pub false_part: u32,
    pub true_part: u32,
    pub domain_size: u32,
    pub start_size: u32,
    pub end_size: u32,
    pub increment: u32,
    pub selection_order: u32,
    pub selection_measure: u32,
    pub proof_format: u32,
    pub eval_limit: u32,
}

impl Options {
    /// The options at the start.
    pub fn start() -> Options
        ensures { result ≡ start }
    {
        Options {
            auto: true,
            unit_deletion: true,
            back_subsume: true,
            back_demod: true,
            lnh: true,
            binary_resolution: false,
            hyper_resolution: false,
            ur_resolution: false,
            factor: false,
            paramodulation: false,
            prolog_style_variables: false,
            order: Order::Lpo,
            max_weight: 100,
            sos_limit: 20000,
            max_given: NO_LIMIT,
            max_kept: NO_LIMIT,
            max_seconds: NO_LIMIT,
            max_megs: 500,
            max_proofs: 1,
            max_models: 1,
            demod_step_limit: 1000,
            age_part: 1,
            weight_part: 0,
            false_part: 4,
            true_part: 4,
            domain_size: 0,
            start_size: 2,
            end_size: 10,
            increment: 1,
            selection_order: 2,
            selection_measure: 4,
            proof_format: 1,
            eval_limit: 1_024,
        }
    }

    /// Sets or clears the flag of a name.
    pub fn change_flag(&mut self, name: &[u8], on: bool) -> Result<(), OptionError>
        ensures ok { OnOk result (flagged name.now on self.old ≡ Ok self.new) }
        ensures err { IfErr result (λ e. flagged name.now on self.old ≡ Err e) }
        ensures kept { IfErr result (λ e. self.new ≡ self.old) }
    {
        if is_idle_flag(name) {
            return Ok(());
        }
        let Some(flag) = flag_named(name) else {
            return Err(OptionError::Unknown);
        };
        self.put_flag(flag, on);
        Ok(())
    }

    fn put_flag(&mut self, flag: Flag, on: bool)
        ensures { self.new ≡ with_flag flag on self.old }
    {
        match flag {
            Flag::Auto => self.auto = on,
            Flag::UnitDeletion => self.unit_deletion = on,
            Flag::BackSubsume => self.back_subsume = on,
            Flag::BackDemod => self.back_demod = on,
            Flag::Lnh => self.lnh = on,
            Flag::BinaryResolution => self.binary_resolution = on,
            Flag::HyperResolution => self.hyper_resolution = on,
            Flag::UrResolution => self.ur_resolution = on,
            Flag::Factor => self.factor = on,
            Flag::Paramodulation => self.paramodulation = on,
            Flag::PrologStyleVariables => self.prolog_style_variables = on,
        }
    }

    /// Assigns a number to the parameter of a name.
    pub fn assign_number(
        &mut self,
        name: &[u8],
        negative: bool,
        size: u64,
    ) -> Result<(), OptionError>
        ensures ok { OnOk result (numbered name.now negative size self.old ≡ Ok self.new) }
        ensures err { IfErr result (λ e. numbered name.now negative size self.old ≡ Err e) }
        ensures kept { IfErr result (λ e. self.new ≡ self.old) }
    {
        if is_idle_parameter(name) {
            return Ok(());
        }
        if takes_symbols(name) {
            return Err(OptionError::NotAValue);
        }
        let Some(parameter) = parameter_named(name) else {
            return Err(OptionError::Unknown);
        };
        let Some(value) = stored(negative, size) else {
            return Err(OptionError::NotAValue);
        };
        if !allows(parameter, value) {
            return Err(OptionError::NotAValue);
        }
        self.put_value(parameter, value);
        Ok(())
    }

    fn put_value(&mut self, parameter: Parameter, value: u32)
        ensures { self.new ≡ with_value parameter value self.old }
    {
        match parameter {
            Parameter::MaxWeight => self.max_weight = value,
            Parameter::SosLimit => self.sos_limit = value,
            Parameter::MaxGiven => self.max_given = value,
            Parameter::MaxKept => self.max_kept = value,
            Parameter::MaxSeconds => self.max_seconds = value,
            Parameter::MaxMegs => self.max_megs = value,
            Parameter::MaxProofs => self.max_proofs = value,
            Parameter::MaxModels => self.max_models = value,
            Parameter::DemodStepLimit => self.demod_step_limit = value,
            Parameter::AgePart => self.age_part = value,
            Parameter::WeightPart => self.weight_part = value,
            Parameter::FalsePart => self.false_part = value,
            Parameter::TruePart => self.true_part = value,
            Parameter::PickGivenRatio => self.put_ratio(value),
            Parameter::DomainSize => self.domain_size = value,
            Parameter::StartSize => self.start_size = value,
            Parameter::EndSize => self.end_size = value,
            Parameter::Increment => self.increment = value,
            Parameter::SelectionOrder => self.selection_order = value,
            Parameter::SelectionMeasure => self.selection_measure = value,
            Parameter::ProofFormat => self.proof_format = value,
            Parameter::EvalLimit => self.eval_limit = value,
        }
    }

    fn put_ratio(&mut self, ratio: u32)
        ensures { self.new ≡ with_value PickGivenRatio ratio self.old }
    {
        self.age_part = 1;
        self.weight_part = ratio;
        self.false_part = 0;
        self.true_part = 0;
    }

    /// Assigns a symbol to the parameter of a name.
    pub fn assign_symbol(&mut self, name: &[u8], symbol: &[u8]) -> Result<(), OptionError>
        ensures ok { OnOk result (symbolized name.now symbol.now self.old ≡ Ok self.new) }
        ensures err { IfErr result (λ e. symbolized name.now symbol.now self.old ≡ Err e) }
        ensures kept { IfErr result (λ e. self.new ≡ self.old) }
    {
        if is_idle_parameter(name) {
            return Ok(());
        }
        if name == b"order".as_slice() {
            return self.put_order(symbol);
        }
        if name == b"eq_defs".as_slice() {
            return if symbol == b"pass".as_slice() {
                Ok(())
            } else {
                Err(OptionError::NotAValue)
            };
        }
        match parameter_named(name) {
            Some(_) => Err(OptionError::NotAValue),
            None => Err(OptionError::Unknown),
        }
    }

    fn put_order(&mut self, symbol: &[u8]) -> Result<(), OptionError>
        ensures ok { OnOk result (option_map_or (ordered self.old) (order_named symbol.now)
            (Err NotAValue) ≡ Ok self.new) }
        ensures err { IfErr result (λ e. option_map_or (ordered self.old) (order_named symbol.now)
            (Err NotAValue) ≡ Err e) }
        ensures kept { IfErr result (λ e. self.new ≡ self.old) }
    {
        if symbol == b"lpo".as_slice() {
            self.order = Order::Lpo;
            return Ok(());
        }
        if symbol == b"kbo".as_slice() {
            self.order = Order::Kbo;
            return Ok(());
        }
        Err(OptionError::NotAValue)
    }
}

fn takes_symbols(name: &[u8]) -> bool
    ensures { result ≡ takes_symbols name.now }
{
    name == b"order".as_slice() || name == b"eq_defs".as_slice()
}

// The number as it is kept, if it may be one.
fn stored(negative: bool, size: u64) -> Option<u32>
    ensures { result ≡ stored negative size }
{
    match (negative, size) {
        (true, 0) => Some(0),
        (true, 1) => Some(NO_LIMIT),
        (true, _) => None,
        (false, size) if size <= 2_147_483_647 => Some(size as u32),
        (false, _) => None,
    }
}

// Whether a number is one of the values of a parameter.
fn allows(parameter: Parameter, value: u32) -> bool
    ensures { result ≡ allows parameter value }
{
    match parameter {
        Parameter::MaxWeight
        | Parameter::SosLimit
        | Parameter::MaxGiven
        | Parameter::MaxKept
        | Parameter::MaxSeconds
        | Parameter::MaxMegs
        | Parameter::DemodStepLimit => true,
        Parameter::MaxProofs | Parameter::MaxModels => value != 0,
        Parameter::AgePart
        | Parameter::WeightPart
        | Parameter::FalsePart
        | Parameter::TruePart
        | Parameter::PickGivenRatio => value <= 1_000,
        Parameter::DomainSize => value <= 200,
        Parameter::StartSize | Parameter::EndSize | Parameter::Increment => 1 <= value
            && value <= 200,
        Parameter::SelectionOrder => value <= 2,
        Parameter::SelectionMeasure => value <= 4,
        Parameter::ProofFormat => 1 <= value && value <= 2,
        Parameter::EvalLimit => value <= 1_000_000,
    }
}

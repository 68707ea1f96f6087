// The names of flags and of parameters.
ghost use Rattle.std.specs.Prelude.{◌≡◌};
ghost use Rattle.ladr_options.specs.Options.{flag_named, parameter_named, limit_named, count_named, part_named, size_named, selection_named, form_named, is_among, is_idle_flag, printing_flags, plain_flags, automatic_flags, rule_flags, idle_parameters};

/// A flag that has an effect.
#[derive(Clone, Copy)]
pub enum Flag {
    Auto,
    UnitDeletion,
    BackSubsume,
    BackDemod,
    Lnh,
    BinaryResolution,
    HyperResolution,
    UrResolution,
    Factor,
    Paramodulation,
    PrologStyleVariables,
}

/// A parameter that has an effect and whose values are numbers.
#[derive(Clone, Copy)]
pub enum Parameter {
    MaxWeight,
    SosLimit,
    MaxGiven,
    MaxKept,
    MaxSeconds,
    MaxMegs,
    MaxProofs,
    MaxModels,
    DemodStepLimit,
    AgePart,
    WeightPart,
    FalsePart,
    TruePart,
    PickGivenRatio,
    DomainSize,
    StartSize,
    EndSize,
    Increment,
    SelectionOrder,
    SelectionMeasure,
    ProofFormat,
    EvalLimit,
}

/// The flag of a name.
pub fn flag_named(name: &[u8]) -> Option<Flag>
    ensures { result ≡ flag_named name.now }
{
    if name == b"auto".as_slice() {
        Some(Flag::Auto)
    } else if name == b"unit_deletion".as_slice() {
        Some(Flag::UnitDeletion)
    } else if name == b"back_subsume".as_slice() {
        Some(Flag::BackSubsume)
    } else if name == b"back_demod".as_slice() {
        Some(Flag::BackDemod)
    } else if name == b"lnh".as_slice() {
        Some(Flag::Lnh)
    } else if name == b"binary_resolution".as_slice() {
        Some(Flag::BinaryResolution)
    } else if name == b"hyper_resolution".as_slice() {
        Some(Flag::HyperResolution)
    } else if name == b"ur_resolution".as_slice() {
        Some(Flag::UrResolution)
    } else if name == b"factor".as_slice() {
        Some(Flag::Factor)
    } else if name == b"paramodulation".as_slice() {
        Some(Flag::Paramodulation)
    } else if name == b"prolog_style_variables".as_slice() {
        Some(Flag::PrologStyleVariables)
    } else {
        None
    }
}

/// The parameter of a name.
pub fn parameter_named(name: &[u8]) -> Option<Parameter>
    ensures { result ≡ parameter_named name.now }
{
    limit_named(name)
        .or(count_named(name))
        .or(part_named(name))
        .or(size_named(name))
        .or(selection_named(name))
        .or(form_named(name))
}

// Limits of the prover.
fn limit_named(name: &[u8]) -> Option<Parameter>
    ensures { result ≡ limit_named name.now }
{
    if name == b"max_weight".as_slice() {
        Some(Parameter::MaxWeight)
    } else if name == b"sos_limit".as_slice() {
        Some(Parameter::SosLimit)
    } else if name == b"max_given".as_slice() {
        Some(Parameter::MaxGiven)
    } else if name == b"max_kept".as_slice() {
        Some(Parameter::MaxKept)
    } else if name == b"max_seconds".as_slice() {
        Some(Parameter::MaxSeconds)
    } else if name == b"max_megs".as_slice() {
        Some(Parameter::MaxMegs)
    } else if name == b"demod_step_limit".as_slice() {
        Some(Parameter::DemodStepLimit)
    } else {
        None
    }
}

// How many proofs or models are wanted.
fn count_named(name: &[u8]) -> Option<Parameter>
    ensures { result ≡ count_named name.now }
{
    if name == b"max_proofs".as_slice() {
        Some(Parameter::MaxProofs)
    } else if name == b"max_models".as_slice() {
        Some(Parameter::MaxModels)
    } else {
        None
    }
}

// The parts of the cycle.
fn part_named(name: &[u8]) -> Option<Parameter>
    ensures { result ≡ part_named name.now }
{
    if name == b"age_part".as_slice() {
        Some(Parameter::AgePart)
    } else if name == b"weight_part".as_slice() {
        Some(Parameter::WeightPart)
    } else if name == b"false_part".as_slice() {
        Some(Parameter::FalsePart)
    } else if name == b"true_part".as_slice() {
        Some(Parameter::TruePart)
    } else if name == b"pick_given_ratio".as_slice() {
        Some(Parameter::PickGivenRatio)
    } else {
        None
    }
}

// Sizes.
fn size_named(name: &[u8]) -> Option<Parameter>
    ensures { result ≡ size_named name.now }
{
    if name == b"domain_size".as_slice() {
        Some(Parameter::DomainSize)
    } else if name == b"start_size".as_slice() {
        Some(Parameter::StartSize)
    } else if name == b"end_size".as_slice() {
        Some(Parameter::EndSize)
    } else if name == b"increment".as_slice() {
        Some(Parameter::Increment)
    } else {
        None
    }
}

// How cells are selected.
fn selection_named(name: &[u8]) -> Option<Parameter>
    ensures { result ≡ selection_named name.now }
{
    if name == b"selection_order".as_slice() {
        Some(Parameter::SelectionOrder)
    } else if name == b"selection_measure".as_slice() {
        Some(Parameter::SelectionMeasure)
    } else {
        None
    }
}

// How proofs are printed, and how far terms are worked out.
fn form_named(name: &[u8]) -> Option<Parameter>
    ensures { result ≡ form_named name.now }
{
    if name == b"proof_format".as_slice() {
        Some(Parameter::ProofFormat)
    } else if name == b"eval_limit".as_slice() {
        Some(Parameter::EvalLimit)
    } else {
        None
    }
}

/// Whether the flag of a name is read without effect.
pub fn is_idle_flag(name: &[u8]) -> bool
    ensures { result ≡ is_idle_flag name.now }
{
    is_printing_flag(name) || is_plain_flag(name) || is_automatic_flag(name) || is_rule_flag(name)
}

fn is_printing_flag(name: &[u8]) -> bool
    ensures { result ≡ is_among printing_flags name.now }
{
    name == b"print_given".as_slice()
        || name == b"print_kept".as_slice()
        || name == b"print_gen".as_slice()
        || name == b"print_proofs".as_slice()
        || name == b"print_initial_clauses".as_slice()
        || name == b"print_models".as_slice()
        || name == b"print_models_tabular".as_slice()
        || name == b"echo_input".as_slice()
}

fn is_plain_flag(name: &[u8]) -> bool
    ensures { result ≡ is_among plain_flags name.now }
{
    name == b"ignore_option_dependencies".as_slice()
        || name == b"quiet".as_slice()
        || name == b"bell".as_slice()
        || name == b"verbose".as_slice()
        || name == b"trace".as_slice()
        || name == b"negprop".as_slice()
}

fn is_automatic_flag(name: &[u8]) -> bool
    ensures { result ≡ is_among automatic_flags name.now }
{
    name == b"auto2".as_slice()
        || name == b"auto_inference".as_slice()
        || name == b"auto_setup".as_slice()
        || name == b"auto_limits".as_slice()
        || name == b"auto_denials".as_slice()
        || name == b"auto_process".as_slice()
        || name == b"process_initial_sos".as_slice()
}

fn is_rule_flag(name: &[u8]) -> bool
    ensures { result ≡ is_among rule_flags name.now }
{
    name == b"neg_binary_resolution".as_slice()
        || name == b"pos_hyper_resolution".as_slice()
        || name == b"neg_hyper_resolution".as_slice()
        || name == b"pos_ur_resolution".as_slice()
        || name == b"neg_ur_resolution".as_slice()
}

/// Whether the parameter of a name is read without effect, whatever its value.
pub fn is_idle_parameter(name: &[u8]) -> bool
    ensures { result ≡ is_among idle_parameters name.now }
{
    name == b"report".as_slice()
        || name == b"report_stderr".as_slice()
        || name == b"stats".as_slice()
        || name == b"lrs_ticks".as_slice()
        || name == b"min_sos_limit".as_slice()
        || name == b"hints_part".as_slice()
}

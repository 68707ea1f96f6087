// Laws of the models that a search gives: the function does nothing, and its contract is the laws.
ghost use Rattle.cell_driver.specs.Comings.{AllModelsAreLeaves, ModelsAreLeaves};

/// The models that a search gives are the first leaves of the plain search, in their order, and all of them where it ends.
pub fn models_are_leaves()
    ensures first { ModelsAreLeaves }
    ensures all { AllModelsAreLeaves }
{}

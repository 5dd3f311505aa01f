//! What holds of samples that are logged. It is the contract of a function without parameters, which does nothing.
ghost use Rattle.pm_pulling.specs.Laws.{LedSamplesAreTaken};

/// Where samples lead to files the archive takes each of them.
pub fn led_samples_are_taken()
    ensures { LedSamplesAreTaken }
{}

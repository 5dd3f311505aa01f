//! What holds of items that are logged. It is the contract of a function without parameters, which does nothing.
ghost use Rattle.pm_extracting.specs.Laws.{LedItemsAreTaken};

/// Where items lead to files the archive takes each of them.
pub fn led_items_are_taken()
    ensures { LedItemsAreTaken }
{}

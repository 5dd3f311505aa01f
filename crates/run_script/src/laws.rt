//! What holds of scripts that are read, and of those that a number makes.
ghost use Rattle.run_script.specs.Laws.{StatementsAreTold, ScriptsAreRuled, GeneratedIsRead, GeneratedIsRuled, GeneratedTicks, GeneratedAdds, DrawsAreAdds, GeneratedOrder};

/// A line is told as a group's exactly where it is a configuration of that group alone.
pub fn statements_are_told()
    ensures { StatementsAreTold }
{}

/// Each script that is read keeps the rules of images, regions and steps.
pub fn scripts_are_ruled()
    ensures { ScriptsAreRuled }
{}

/// The text of a generated script is read as that script, which so keeps the rules.
pub fn generated_is_read()
    ensures read { GeneratedIsRead }
    ensures ruled { GeneratedIsRuled }
{}

/// A generated script has a tick at each second from the first on, behind its adds, which are those of the draws; changes
/// and flushes stand where they belong.
pub fn generated_is_in_order()
    ensures ticks { GeneratedTicks }
    ensures adds { GeneratedAdds }
    ensures bounds { DrawsAreAdds }
    ensures order { GeneratedOrder }
{}

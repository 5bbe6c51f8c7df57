//! Laws of the definitions that contracts cite. No function does anything: its contract is the law, and its body
//! names the laws that it follows from.

ghost use Rattle.std.specs.Prelude.{◌≡◌, ◌≢◌, ℕ, List, map, take};
ghost use Rattle.leg_lib_records.specs.Records.{LibraryModel};
ghost use Rattle.leg_design_records.specs.Records.{DesignModel};
ghost use Rattle.leg_design_records.specs.declared.fault.Fault.{Fault};
ghost use Rattle.leg_app_input.specs.declared.command.Command.{Command};
ghost use Rattle.leg_app_input.specs.declared.command.Command.TheVariants.{Route, Flow, Finish};
ghost use Rattle.leg_app.specs.declared.status.Status.{Status};
ghost use Rattle.leg_app.specs.declared.status.Status.TheVariants.{Refused, Memory};
ghost use Rattle.leg_app.specs.declared.limits.TheConstants.{FILE_LIMIT, STREAM_LIMIT};
ghost use Rattle.leg_grammar.specs.declared.profile.Profile.{Profile};
ghost use Rattle.leg_grammar.specs.Texts.{DenoteLibraryFor, DenoteDesign};
ghost use Rattle.leg_rules.specs.Violations.{AreAllViolations};
ghost use Rattle.leg_app.specs.Violations.{AreViolationsOf};
ghost use Rattle.leg_app.specs.Answer.{IsAnswer, IsStreamAnswer};
ghost use Rattle.leg_app.specs.Comparison.{IsComparison};

/// LEF texts denote one library at most in a profile, at the units of a DEF.
pub fn texts_say_one_library()
    ensures { (profile : Profile) (lefs : List (List ℕ)) (def : List ℕ) (a b : LibraryModel)
        → DenoteLibraryFor profile lefs def a → DenoteLibraryFor profile lefs def b → a ≡ b }
{
    leg_lib::laws::texts_say_one_library();
    leg_lib::laws::one_library_at_units();
}

/// Texts denote one design at most in a profile.
pub fn texts_say_one_design()
    ensures { (profile : Profile) (lefs : List (List ℕ)) (def : List ℕ) (library other : LibraryModel) (a b : DesignModel)
        → DenoteDesign profile lefs def library a → DenoteDesign profile lefs def other b → (library ≡ other) × (a ≡ b) }
{
    texts_say_one_library();
}

/// A design has one list of violations.
pub fn design_has_one_list()
    ensures { (design : DesignModel) (a b : List Fault)
        → AreAllViolations design a → AreAllViolations design b → a ≡ b }
{}

/// Texts have one list of violations at most: two checks of the same texts find the same.
pub fn texts_have_one_list()
    ensures { (profile : Profile) (lefs : List (List ℕ)) (def : List ℕ) (a b : List Fault)
        → AreViolationsOf profile lefs def a → AreViolationsOf profile lefs def b → a ≡ b }
{
    texts_say_one_design();
}

/// Of two answers of a command to the same texts, neither of them that memory ran out, either both refuse the texts, or they
/// have the same status and the same text. This holds of each command that doesn't route.
pub fn command_has_one_answer()
    ensures { (command : Command) (profile : Profile) (lefs : List (List ℕ)) (def : List ℕ) (status other : Status) (text words : List ℕ)
        → IsAnswer command profile lefs def status text → IsAnswer command profile lefs def other words
        → command ≢ Route → command ≢ Flow → command ≢ Finish → status ≢ Refused → status ≢ Memory → other ≢ Memory → (status ≡ other) × (text ≡ words) }
{
    texts_say_one_design();
}

/// A stream is cut into a LEF and a DEF in one way. So of two answers to it, neither of them that memory ran out, either both
/// refuse it, or they have the same status and the same text.
pub fn stream_has_one_answer()
    ensures { (stream : List ℕ) (status other : Status) (text words : List ℕ)
        → IsStreamAnswer stream status text → IsStreamAnswer stream other words
        → status ≢ Refused → status ≢ Memory → other ≢ Memory → (status ≡ other) × (text ≡ words) }
{
    command_has_one_answer();
}

/// Of two answers of `compare` to the same texts, neither of them that memory ran out, either both refuse the texts, or they have
/// the same status and the same text.
pub fn comparison_has_one_answer()
    ensures { (profile : Profile) (lefs : List (List ℕ)) (before after : List ℕ) (status other : Status) (text words : List ℕ)
        → IsComparison profile lefs before after status text → IsComparison profile lefs before after other words
        → status ≢ Refused → status ≢ Memory → other ≢ Memory → (status ≡ other) × (text ≡ words) }
{
    texts_say_one_design();
}

/// A file that is cut at `FILE_LIMIT` is answered as the whole of it: what is cut off is beyond what a text may have.
pub fn cut_files_are_answered_alike()
    ensures { (command : Command) (profile : Profile) (lefs : List (List ℕ)) (def : List ℕ) (status : Status) (text : List ℕ)
        → IsAnswer command profile (map (take FILE_LIMIT) lefs) (take FILE_LIMIT def) status text → IsAnswer command profile lefs def status text }
{}

/// A stream that is cut at `STREAM_LIMIT` is answered as the whole of it.
pub fn cut_stream_is_answered_alike()
    ensures { (stream : List ℕ) (status : Status) (text : List ℕ)
        → IsStreamAnswer (take STREAM_LIMIT stream) status text → IsStreamAnswer stream status text }
{}

//! What a command prints, another one judges as the first one's definition says.
//!
//! No function does anything: its contract is the law, and its body names the laws that it follows from. The text is read as
//! a DEF under the LEFs of the run that printed it, in the profile of that run. No name in it ends with `;`, for it would be
//! read as two words, and the text is no longer than a text may be.

ghost use Rattle.std.specs.Prelude.{ℕ, ◌≤◌, List, length};
ghost use Rattle.leg_lex.specs.declared.limits.TheConstants.{TEXT_LIMIT};
ghost use Rattle.leg_lib_records.specs.Records.{LibraryModel};
ghost use Rattle.leg_design_records.specs.Records.{DesignModel};
ghost use Rattle.leg_app_input.specs.declared.command.Command.TheVariants.{PlaceCheck, Check};
ghost use Rattle.leg_print_laws.specs.PrintedNames.{StayOne, printed_names};
ghost use Rattle.leg_grammar.specs.declared.profile.Profile.{Profile};
ghost use Rattle.leg_grammar.specs.Texts.{DenoteDesign};
ghost use Rattle.leg_app.specs.LegaliseResult.{PrintsLegalised};
ghost use Rattle.leg_app.specs.RouteResult.{PrintsRouted};
ghost use Rattle.leg_app.specs.FlowResult.{PrintsFlow};
ghost use Rattle.leg_app.specs.FinishResult.{PrintsFinished};
ghost use Rattle.leg_app.specs.PrintResult.{PrintsDesign};
ghost use Rattle.leg_app_laws.specs.Legal.{AnswersLegal};
ghost use Rattle.leg_app_laws.specs.Lines.{AnswersPlaces, AnswersWires, AnswersPlacesAndWires};

use leg_app::laws::{command_has_one_answer, texts_say_one_design};
use leg_compare::laws::{
    legalised_and_routed_design_differs_in_places_and_wires, legalised_design_differs_in_places,
    routed_design_differs_in_wires,
};
use leg_print_laws::laws::printed_text_says_its_design;

/// What `route`, `legalise`, `flow` and `finish` print denotes the design that they made, under its library: the lines on how far
/// components have moved, and on added wires, are comments. What `print` prints denotes the design of its DEF.
pub fn printed_texts_say_their_designs()
    ensures routed { (profile : Profile) (lefs : List (List ℕ)) (def text : List ℕ) (library : LibraryModel) (design : DesignModel)
        → DenoteDesign profile lefs def library design → (printed : PrintsRouted design text)
        → StayOne (printed_names printed.routed) → length text ≤ TEXT_LIMIT
        → DenoteDesign profile lefs text printed.routed.library printed.routed }
    ensures legalised { (profile : Profile) (lefs : List (List ℕ)) (def text : List ℕ) (library : LibraryModel) (design : DesignModel)
        → DenoteDesign profile lefs def library design → (printed : PrintsLegalised design text)
        → StayOne (printed_names printed.legalised) → length text ≤ TEXT_LIMIT
        → DenoteDesign profile lefs text printed.legalised.library printed.legalised }
    ensures flow { (profile : Profile) (lefs : List (List ℕ)) (def text : List ℕ) (library : LibraryModel) (design : DesignModel)
        → DenoteDesign profile lefs def library design → (printed : PrintsFlow design text)
        → StayOne (printed_names printed.routed) → length text ≤ TEXT_LIMIT
        → DenoteDesign profile lefs text printed.routed.library printed.routed }
    ensures finished { (profile : Profile) (lefs : List (List ℕ)) (def text : List ℕ) (library : LibraryModel) (design : DesignModel)
        → DenoteDesign profile lefs def library design → (printed : PrintsFinished design text)
        → StayOne (printed_names printed.finished) → length text ≤ TEXT_LIMIT
        → DenoteDesign profile lefs text printed.finished.library printed.finished }
    ensures printed { (profile : Profile) (lefs : List (List ℕ)) (def text : List ℕ) (library : LibraryModel) (design : DesignModel)
        → DenoteDesign profile lefs def library design → PrintsDesign design text
        → StayOne (printed_names design) → length text ≤ TEXT_LIMIT → DenoteDesign profile lefs text library design }
{
    printed_text_says_its_design();
}

/// What `route` prints, `check` answers `legal`.
pub fn routed_text_is_legal()
    ensures { (profile : Profile) (lefs : List (List ℕ)) (def text : List ℕ) (library : LibraryModel) (design : DesignModel)
        → DenoteDesign profile lefs def library design → (printed : PrintsRouted design text)
        → StayOne (printed_names printed.routed) → length text ≤ TEXT_LIMIT → AnswersLegal Check profile lefs text }
{
    printed_text_says_its_design();
    command_has_one_answer();
}

/// What `legalise` prints, `place-check` answers `legal`.
pub fn legalised_text_is_legally_placed()
    ensures { (profile : Profile) (lefs : List (List ℕ)) (def text : List ℕ) (library : LibraryModel) (design : DesignModel)
        → DenoteDesign profile lefs def library design → (printed : PrintsLegalised design text)
        → StayOne (printed_names printed.legalised) → length text ≤ TEXT_LIMIT → AnswersLegal PlaceCheck profile lefs text }
{
    printed_text_says_its_design();
    command_has_one_answer();
}

/// What `flow` prints, `check` answers `legal`.
pub fn flow_text_is_legal()
    ensures { (profile : Profile) (lefs : List (List ℕ)) (def text : List ℕ) (library : LibraryModel) (design : DesignModel)
        → DenoteDesign profile lefs def library design → (printed : PrintsFlow design text)
        → StayOne (printed_names printed.routed) → length text ≤ TEXT_LIMIT → AnswersLegal Check profile lefs text }
{
    printed_text_says_its_design();
    command_has_one_answer();
}

/// What `finish` prints, `check` answers `legal`.
pub fn finished_text_is_legal()
    ensures { (profile : Profile) (lefs : List (List ℕ)) (def text : List ℕ) (library : LibraryModel) (design : DesignModel)
        → DenoteDesign profile lefs def library design → (printed : PrintsFinished design text)
        → StayOne (printed_names printed.finished) → length text ≤ TEXT_LIMIT → AnswersLegal Check profile lefs text }
{
    printed_text_says_its_design();
    command_has_one_answer();
}

/// What `legalise` prints differs in places of movable components alone from the DEF that it is made of: `compare` answers a line for each
/// and `same` or `places N`.
pub fn legalised_text_differs_in_places()
    ensures { (profile : Profile) (lefs : List (List ℕ)) (def text : List ℕ) (library : LibraryModel) (design : DesignModel)
        → DenoteDesign profile lefs def library design → (printed : PrintsLegalised design text)
        → StayOne (printed_names printed.legalised) → length text ≤ TEXT_LIMIT → AnswersPlaces profile lefs def text }
{
    printed_texts_say_their_designs();
    texts_say_one_design();
    legalised_design_differs_in_places();
}

/// What `route` prints differs in added wires alone: `compare` answers a line for each entry of `NETS` that has more, and `same` or `wires N`.
pub fn routed_text_differs_in_wires()
    ensures { (profile : Profile) (lefs : List (List ℕ)) (def text : List ℕ) (library : LibraryModel) (design : DesignModel)
        → DenoteDesign profile lefs def library design → (printed : PrintsRouted design text)
        → StayOne (printed_names printed.routed) → length text ≤ TEXT_LIMIT → AnswersWires profile lefs def text }
{
    printed_texts_say_their_designs();
    texts_say_one_design();
    routed_design_differs_in_wires();
}

/// What `finish` prints differs in added wires alone: `compare` answers a line for each entry of `NETS` that has more, and `same` or
/// `wires N`.
pub fn finished_text_differs_in_wires()
    ensures { (profile : Profile) (lefs : List (List ℕ)) (def text : List ℕ) (library : LibraryModel) (design : DesignModel)
        → DenoteDesign profile lefs def library design → (printed : PrintsFinished design text)
        → StayOne (printed_names printed.finished) → length text ≤ TEXT_LIMIT → AnswersWires profile lefs def text }
{
    printed_texts_say_their_designs();
    texts_say_one_design();
    routed_design_differs_in_wires();
}

/// What `flow` prints differs in places of movable components and in added wires alone: `compare` answers lines of these two kinds, and no
/// `differs N`.
pub fn flow_text_differs_in_places_and_wires()
    ensures { (profile : Profile) (lefs : List (List ℕ)) (def text : List ℕ) (library : LibraryModel) (design : DesignModel)
        → DenoteDesign profile lefs def library design → (printed : PrintsFlow design text)
        → StayOne (printed_names printed.routed) → length text ≤ TEXT_LIMIT → AnswersPlacesAndWires profile lefs def text }
{
    printed_texts_say_their_designs();
    texts_say_one_design();
    legalised_and_routed_design_differs_in_places_and_wires();
}

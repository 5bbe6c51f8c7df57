//! What the lines and entries of the printed text of a design are read as.
//!
//! No function does anything: its contract is the law. The library is a sound one, as each `Library` is, and what is
//! printed is well-formed under it, as each part of a `Design` is. No name that is printed ends with `;`, for it would be
//! read as two words.

ghost use Rattle.std.specs.Prelude.{◌≡◌, ℕ, ◌≤◌, true, false, List, [], ◌∷◌, ◌++◌, length, IsTrue, codes};
ghost use Rattle.leg_lex.specs.Denotes.{Denotes};
ghost use Rattle.leg_lex.specs.Words.{is_word, is_name, end_at};
ghost use Rattle.leg_lex.specs.declared.limits.TheConstants.{NUMBER_LIMIT, UNITS_LIMIT, TEXT_LIMIT};
ghost use Rattle.leg_output.specs.Words.{stays_one, line};
ghost use Rattle.leg_geom.specs.Plane.{RectModel};
ghost use Rattle.leg_lib_records.specs.Records.{ViaModel};
ghost use Rattle.leg_lib_records.specs.Sound.{IsSound};
ghost use Rattle.leg_design_records.specs.declared.records.Row.{Row};
ghost use Rattle.leg_design_records.specs.declared.records.Component.{Component};
ghost use Rattle.leg_design_records.specs.Records.{DesignModel, TrackModel, PinModel, BlockageModel, NetModel};
ghost use Rattle.leg_design_records.specs.WellFormedParts.{IsArea, IsRow, IsTrack};
ghost use Rattle.leg_design_records.specs.WellFormed.{IsWellFormed};
ghost use Rattle.leg_grammar.specs.declared.profile.Profile.{Profile};
ghost use Rattle.leg_grammar.specs.declared.profile.Profile.TheVariants.{Narrow};
ghost use Rattle.leg_grammar.specs.Def.Die.{die_at};
ghost use Rattle.leg_grammar.specs.Def.Row.{row_at};
ghost use Rattle.leg_grammar.specs.Def.Track.{track_at};
ghost use Rattle.leg_grammar.specs.Def.Via.{via_entry};
ghost use Rattle.leg_grammar.specs.Def.Component.{component_entry};
ghost use Rattle.leg_grammar.specs.Def.Pin.{pin_entry};
ghost use Rattle.leg_grammar.specs.Def.Blockage.{blockage_entry};
ghost use Rattle.leg_grammar.specs.Def.Net.{net_entry};
ghost use Rattle.leg_grammar.specs.Def.Header.{word_after, design_name_at, units_at, units_in};
ghost use Rattle.leg_grammar.specs.Def.Section.{section_start};
ghost use Rattle.leg_grammar.specs.Def.Parts.{DesignParts, net_scope};
ghost use Rattle.leg_grammar.specs.Def.Form.{def_form_at, design_in};
ghost use Rattle.leg_output.specs.Text.Header.{version_words, word_words, units_words, die_words};
ghost use Rattle.leg_output.specs.Text.Rows.{row_words};
ghost use Rattle.leg_output.specs.Text.Tracks.{track_words};
ghost use Rattle.leg_output.specs.Text.Vias.{via_words};
ghost use Rattle.leg_output.specs.Text.Components.{component_words};
ghost use Rattle.leg_output.specs.Text.Pins.{pin_words};
ghost use Rattle.leg_output.specs.Text.Blockages.{blockage_words};
ghost use Rattle.leg_output.specs.Text.Nets.{net_text};
ghost use Rattle.leg_output.specs.Text.Sections.{section_start_words, end_words};
ghost use Rattle.leg_output.specs.Text.Whole.{design_text};
ghost use Rattle.leg_print_laws.specs.Forms.{DenotesForm, WordsDenote};
ghost use Rattle.leg_print_laws.specs.PrintedNames.{StayOne, row_names, track_names, via_entry_names, component_entry_names, pin_entry_names, blockage_entry_names, net_entry_names, printed_names};

use leg_design_records::Design;
use std::alloc::Allocator;

/// The printed text of a design denotes exactly this design, in each profile, and the units of its library.
pub fn printed_text_says_its_design()
    ensures design { (profile : Profile) (design : DesignModel) → IsSound design.library → IsWellFormed design → StayOne (printed_names design)
        → length (design_text design) ≤ TEXT_LIMIT → Denotes (design_in profile design.library) (design_text design) design }
    ensures units { (design : DesignModel) → IsSound design.library → IsWellFormed design → StayOne (printed_names design)
        → length (design_text design) ≤ TEXT_LIMIT → Denotes units_in (design_text design) design.library.units }
{}

/// The printed text of a design denotes no other design, so that what is read of it is printed as the same bytes again.
pub fn printed_text_says_no_other()
    ensures same { (profile : Profile) (design other : DesignModel) → IsSound design.library → IsWellFormed design → StayOne (printed_names design)
        → length (design_text design) ≤ TEXT_LIMIT → Denotes (design_in profile design.library) (design_text design) other → other ≡ design }
    ensures bytes { (profile : Profile) (design other : DesignModel) → IsSound design.library → IsWellFormed design → StayOne (printed_names design)
        → length (design_text design) ≤ TEXT_LIMIT → Denotes (design_in profile design.library) (design_text design) other
        → design_text other ≡ design_text design }
{
    leg_lex::laws::one_cut();
}

/// The words of the printed text of a design denote exactly this design, whatever the text's length, if it has no more vias of its
/// own than a number can be: their count is printed, and is read as a number.
pub fn printed_words_say_their_design()
    ensures { (profile : Profile) (design : DesignModel) → IsSound design.library → IsWellFormed design → StayOne (printed_names design)
        → length design.vias ≤ NUMBER_LIMIT → WordsDenote (design_in profile design.library) (design_text design) design }
{}

/// The same of a design that the program has: it and its library are as the laws ask for, by their types.
pub fn printed_design_is_read_again<A: Allocator + Copy>(design: &Design<'_, A>)
    ensures { (profile : Profile) → StayOne (printed_names design.now) → length (design_text design.now) ≤ TEXT_LIMIT
        → Denotes (design_in profile design.now.library) (design_text design.now) design.now }
{
    let library = design.library();
    let _layers = library.layers();
    let _die = design.die();
}

/// The lines of the divider and of the brackets of bus bits contain these words.
pub fn naming_lines_are_read()
    ensures divider { (word : List ℕ) → IsTrue (is_word word) → IsTrue (stays_one word)
        → DenotesForm (word_after (codes "DIVIDERCHAR")) (line (word_words (codes "DIVIDERCHAR") word)) word }
    ensures bus { (word : List ℕ) → IsTrue (is_word word) → IsTrue (stays_one word)
        → DenotesForm (word_after (codes "BUSBITCHARS")) (line (word_words (codes "BUSBITCHARS") word)) word }
{}

/// The line of the version is read past.
pub fn version_line_is_read()
    ensures { (parts : DesignParts) → DenotesForm (def_form_at parts) (line version_words) parts }
{}

/// The first line of a section contains its keyword and the count of its entries, and its last line ends it: VIAS, COMPONENTS,
/// PINS, BLOCKAGES, SPECIALNETS and NETS are printed so.
pub fn section_lines_are_read()
    ensures first { (keyword : List ℕ) (count : ℕ) → IsTrue (is_name keyword) → IsTrue (stays_one keyword) → count ≤ NUMBER_LIMIT
        → DenotesForm (section_start keyword) (line (section_start_words keyword count)) tt }
    ensures last { (keyword : List ℕ) → IsTrue (is_name keyword) → IsTrue (stays_one keyword)
        → DenotesForm (end_at keyword) (line (end_words keyword)) tt }
{}

/// The last line ends the design.
pub fn end_line_is_read()
    ensures { DenotesForm (end_at (codes "DESIGN")) (line (end_words (codes "DESIGN"))) tt }
{}

/// The line of the design contains its name.
pub fn name_line_is_read()
    ensures { (name : List ℕ) → IsTrue (is_name name) → IsTrue (stays_one name)
        → DenotesForm design_name_at (line (word_words (codes "DESIGN") name)) name }
{}

/// The line of the units contains the number of units in a micron.
pub fn units_line_is_read()
    ensures { (n : ℕ) → 1 ≤ n → n ≤ UNITS_LIMIT → DenotesForm units_at (line (units_words n)) n }
{}

/// The line of the die area denotes this rectangle.
pub fn die_line_is_read()
    ensures { (die : RectModel) → IsArea die → DenotesForm die_at (line (die_words die)) die }
{}

/// The line of a row denotes this row.
pub fn row_line_is_read()
    ensures { (design : DesignModel) (row : Row) → IsSound design.library → IsRow design.library row
        → StayOne (row_names design row) → DenotesForm (row_at design.library) (line (row_words design row)) row }
{}

/// The line of tracks denotes these tracks.
pub fn track_line_is_read()
    ensures { (design : DesignModel) (track : TrackModel) → IsSound design.library → IsTrack design.library track
        → StayOne (track_names design track) → DenotesForm (track_at Narrow design.library) (line (track_words design track)) track }
{}

/// The entry of a via denotes this via, after those before it.
pub fn via_entry_is_read()
    ensures { (design : DesignModel) (before after : List ViaModel) (via : ViaModel) → IsSound design.library → IsWellFormed design
        → design.vias ≡ before ++ (via ∷ after) → StayOne (via_entry_names design via)
        → DenotesForm (via_entry Narrow design.library before) (line (via_words design via)) (before ++ via ∷ []) }
{}

/// The entry of a component denotes this component, after those before it.
pub fn component_entry_is_read()
    ensures { (design : DesignModel) (before after : List Component) (component : Component) → IsSound design.library → IsWellFormed design
        → design.components ≡ before ++ (component ∷ after) → StayOne (component_entry_names design component)
        → DenotesForm (component_entry design.library before) (line (component_words design component)) (before ++ component ∷ []) }
{}

/// The entry of a pin denotes this pin, after those before it.
pub fn pin_entry_is_read()
    ensures { (design : DesignModel) (before after : List PinModel) (pin : PinModel) → IsSound design.library → IsWellFormed design
        → design.pins ≡ before ++ (pin ∷ after) → StayOne (pin_entry_names design pin)
        → DenotesForm (pin_entry (net_scope Narrow design) before) (line (pin_words design pin)) (before ++ pin ∷ []) }
{}

/// The entry of a blockage denotes this blockage, after those before it.
pub fn blockage_entry_is_read()
    ensures { (design : DesignModel) (before after : List BlockageModel) (blockage : BlockageModel) → IsSound design.library → IsWellFormed design
        → design.blockages ≡ before ++ (blockage ∷ after) → StayOne (blockage_entry_names design blockage)
        → DenotesForm (blockage_entry Narrow design.library before) (line (blockage_words design blockage)) (before ++ blockage ∷ []) }
{}

/// The entry of a net denotes this net, with its terminals and its wires, after those before it: an entry of
/// SPECIALNETS where NETS has none yet, and one of NETS where SPECIALNETS has all of its entries.
pub fn net_entry_is_read()
    ensures special { (design : DesignModel) (before after : List NetModel) (net : NetModel) → IsSound design.library → IsWellFormed design
        → design.special ≡ before ++ (net ∷ after) → StayOne (net_entry_names design net)
        → DenotesForm (net_entry (net_scope Narrow design) true [] before) (net_text design true net) (before ++ net ∷ []) }
    ensures nets { (design : DesignModel) (before after : List NetModel) (net : NetModel) → IsSound design.library → IsWellFormed design
        → design.nets ≡ before ++ (net ∷ after) → StayOne (net_entry_names design net)
        → DenotesForm (net_entry (net_scope Narrow design) false design.special before) (net_text design false net) (before ++ net ∷ []) }
{}

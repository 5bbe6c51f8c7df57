//! Components of a DEF (LEF/DEF 5.8, "Components").

ghost use Rattle.std.specs.Prelude.{◌≡◌, [], filter};
ghost use Rattle.leg_lex.specs.Words.{Reads, Means};
ghost use Rattle.leg_lex.specs.Until.{until};
ghost use Rattle.leg_lex.specs.Statements.{at_most_one, at_end};
ghost use Rattle.leg_design_records.specs.Records.{component_names};
ghost use Rattle.leg_grammar.specs.Def.Component.{is_placement, unplaced_in, placement_in, placement_of, new_name_at, master_at, component_head, component_in, component_entry, components_at};

use leg_design_common::clause::all_clauses;
use leg_design_common::placement::{placed, says_place};
use leg_design_common::section_start;
use leg_design_records::{Component, ENTRY_LIMIT, Status};
use leg_geom::Place;
use leg_lex::{
    Cursor, Entry, FaultKind, Name, NameKind, NamedList, Need, ReadFault, clauses, is_keyword,
};
use leg_lib_records::Library;
use std::alloc::Allocator;

/// Whether a clause gives the place of the component.
fn is_placement(clause: &Cursor<'_, '_>) -> bool
    ensures { result ≡ is_placement clause.now }
{
    says_place(clause) || clause.is_at(b"UNPLACED")
}

/// `UNPLACED`, and nothing after it.
#[tactic(auto, unfolding(leg_grammar::specs::Def::Component::unplaced_in))]
fn unplaced(clause: &mut Cursor<'_, '_>) -> Result<(), ReadFault>
    ensures { Means (λ x. x) result (unplaced_in clause.old) }
{
    clause.keyword(b"UNPLACED")?;
    clause.nothing_more()
}

/// The status and the place that a clause gives.
#[tactic(auto, unfolding(leg_grammar::specs::Def::Component::placement_in))]
fn placement(clause: &mut Cursor<'_, '_>) -> Result<(Status, Option<Place>), ReadFault>
    ensures { Means (λ p. p) result (placement_in clause.old) }
{
    if says_place(clause) {
        let (status, place) = placed(clause)?;
        Ok((status, Some(place)))
    } else {
        unplaced(clause)?;
        Ok((Status::Unplaced, None))
    }
}

/// The clause that gives the place of the component, if there is one. A second one is `Unexpected`.
#[tactic(auto, using(crate::proofs::OneOfKind::passed_over, crate::proofs::OneOfKind::found_first, crate::proofs::OneOfKind::found_second, crate::proofs::OneOfKind::looked_through))]
fn placement_clause<'t, 'a>(clauses: &[Cursor<'t, 'a>]) -> Result<Option<Cursor<'t, 'a>>, ReadFault>
    ensures { Means (λ found. found) result (at_most_one (filter is_placement clauses.now)) }
{
    let mut found = None;
    for clause in clauses {
        if is_placement(clause) {
            if found.is_some() {
                return Err(clause.need(FaultKind::Unexpected, Need::NoSecond));
            }
            found = Some(clause.again());
        }
    }
    Ok(found)
}

/// The status and the place that the clauses give; at most one of them gives the place of the component.
#[tactic(auto, unfolding(leg_grammar::specs::Def::Component::placement_of))]
fn placement_of(clauses: &[Cursor<'_, '_>]) -> Result<(Status, Option<Place>), ReadFault>
    ensures { Means (λ p. p) result (placement_of clauses.now) }
{
    all_clauses(clauses)?;
    match placement_clause(clauses)? {
        Some(mut clause) => placement(&mut clause),
        None => Ok((Status::Unplaced, None)),
    }
}

/// A name that no component before has, and which isn't `PIN`, in capitals or small letters.
#[tactic(auto, unfolding(leg_grammar::specs::Def::Component::new_name_at))]
fn new_name<'a, A: Allocator + Copy>(
    components: &NamedList<'a, Component<'a>, A>,
    head: &mut Cursor<'_, 'a>,
) -> Result<&'a [u8], ReadFault>
    ensures { Reads (λ name. name.now) result head.new (new_name_at (component_names components.now) head.old) }
{
    let first = head.again();
    let name = head.name()?;
    if is_keyword(b"PIN", name) {
        return Err(first.need(FaultKind::Unexpected, Need::Name));
    }
    if components.place_of(name).is_some() {
        return Err(first.need(FaultKind::DuplicateName, Need::New(NameKind::Component)));
    }
    Ok(name)
}

/// A macro of the library, by its number.
#[tactic(auto, unfolding(leg_grammar::specs::Def::Component::master_at))]
fn master<A: Allocator + Copy>(
    library: &Library<'_, A>,
    head: &mut Cursor<'_, '_>,
) -> Result<usize, ReadFault>
    ensures { Reads (λ number. number) result head.new (master_at library.now head.old) }
{
    let first = head.again();
    let name = head.name()?;
    match library.master_named(name) {
        Some(number) => Ok(number),
        None => Err(first.need(FaultKind::UnknownName, Need::Known(NameKind::Macro))),
    }
}

/// The entry's head: `- NAME macro`.
#[tactic(auto, unfolding(leg_grammar::specs::Def::Component::component_head))]
fn component_head<'a, A: Allocator + Copy>(
    library: &Library<'_, A>,
    components: &NamedList<'a, Component<'a>, A>,
    head: &mut Cursor<'_, 'a>,
) -> Result<(&'a [u8], usize), ReadFault>
    ensures { Means (λ h. (h.0.now, h.1)) result (component_head library.now (component_names components.now) head.old) }
{
    head.mark(b'-')?;
    let name = new_name(components, head)?;
    let master = master(library, head)?;
    head.nothing_more()?;
    Ok((name, master))
}

/// A component of the head and the clauses of its entry.
#[tactic(auto, unfolding(leg_grammar::specs::Def::Component::component_in))]
fn component<'a, A: Allocator + Copy>(
    library: &Library<'_, A>,
    components: &NamedList<'a, Component<'a>, A>,
    entry: &Cursor<'_, 'a>,
    parts: &[Cursor<'_, 'a>],
) -> Result<Component<'a>, ReadFault>
    ensures { Means (λ c. c) result (component_in library.now (component_names components.now) parts.now) }
{
    let [head, clauses @ ..] = parts else {
        return Err(entry.fault(FaultKind::Unexpected));
    };
    let (name, master) = component_head(library, components, &mut head.again())?;
    let (status, place) = placement_of(clauses)?;
    Ok(Component {
        name: Name::new(name),
        master,
        status,
        place,
    })
}

/// One more component, up to the semicolon of its entry.
#[tactic(auto, using(crate::proofs::Components::name_is_fresh), unfolding(leg_grammar::specs::Def::Component::component_entry))]
fn entry<'a, A: Allocator + Copy>(
    alloc: A,
    library: &Library<'_, A>,
    components: &mut NamedList<'a, Component<'a>, A>,
    words: &mut Cursor<'_, 'a>,
) -> Result<(), ReadFault>
    ensures { Reads (λ _. components.new) result words.new (component_entry library.now components.old words.old) }
{
    if components.len() as u64 >= ENTRY_LIMIT {
        return Err(words.need(FaultKind::TooMany, Need::Fewer(Entry::Component)));
    }
    let statement = words.statement()?;
    let parts = clauses(alloc, &statement)?;
    let component = component(library, components, &statement, &parts)?;
    components.push(component.name.bytes(), component)?;
    Ok(())
}

/// The entries of the section, up to its `END`.
#[tactic(auto, using(leg_lex::proofs::Until::ends, leg_lex::proofs::Until::goes_on, leg_lex::proofs::Until::fails, crate::proofs::Components::entry_shortens, crate::proofs::Components::entry_shorter))]
fn entries<'a, A: Allocator + Copy>(
    alloc: A,
    library: &Library<'_, A>,
    words: &mut Cursor<'_, 'a>,
) -> Result<NamedList<'a, Component<'a>, A>, ReadFault>
    ensures { Reads (λ t. t) result words.new (until at_end (component_entry library.now) [] words.old) }
{
    let mut components = NamedList::new(alloc);
    'entries: while !words.is_at(b"END") {
        entry(alloc, library, &mut components, words)?;
    }
    Ok(components)
}

/// The section `COMPONENTS`.
#[tactic(auto, unfolding(leg_grammar::specs::Def::Component::components_at, leg_grammar::specs::Def::Section::section_at))]
pub fn components<'a, A: Allocator + Copy>(
    alloc: A,
    library: &Library<'_, A>,
    words: &mut Cursor<'_, 'a>,
) -> Result<NamedList<'a, Component<'a>, A>, ReadFault>
    ensures { Reads (λ t. t) result words.new (components_at library.now words.old) }
{
    section_start(b"COMPONENTS", words)?;
    let start = words.again();
    let components = match entries(alloc, library, words) {
        Ok(components) => components,
        Err(fault) => return Err(start.with_first_entry(fault)),
    };
    words.end(b"COMPONENTS")?;
    Ok(components)
}

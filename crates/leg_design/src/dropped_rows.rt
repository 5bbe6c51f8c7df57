//! Rows that the wide profile drops (LEF/DEF 5.8, "Rows"; lefdef's own rule).

ghost use Rattle.std.specs.Prelude.{◌≡◌, ◌==◌, [], OnOk};
ghost use Rattle.std.specs.List.{list_any};
ghost use Rattle.leg_lex.specs.Words.{Means};
ghost use Rattle.leg_grammar.specs.Def.Guard.{unless};
ghost use Rattle.leg_grammar.specs.Def.DroppedRow.{with_site, have_site};

use leg_design_floorplan::dropped_row::have_site;
use leg_design_records::Component;
use leg_lex::{Cursor, FaultKind, ReadFault};
use leg_lib_records::Library;
use std::alloc::{AllocError, Allocator};
use std::marker::Model;

/// The sites of the rows that were dropped, each once, and for each the fault of its first row, which the text has if a component's macro
/// has the site. Contracts see it as the list of sites.
#[derive(Drop)]
pub(crate) struct DroppedRows<A: Allocator> {
    sites: Vec<usize, A>,
    faults: Vec<ReadFault, A>,
}

impl<A: Allocator> Model for DroppedRows<A> {
    ghost use Rattle.std.specs.Prelude.{List, ℕ};

    ghost Value = { List ℕ };

    ghost view = { λ d. d.sites.items };
}

/// Whether this site is one of these.
fn is_one_of(sites: &[usize], site: usize) -> bool
    ensures { result ≡ list_any (λ s. s == site) sites.now }
{
    sites.iter().any(|s| *s == site)
}

/// Whether the macro of one of the components has one of the sites.
fn have_any_site<A: Allocator + Copy>(
    library: &Library<'_, A>,
    components: &[Component<'_>],
    sites: &[usize],
) -> bool
    ensures { result ≡ list_any (have_site library.now components.now) sites.now }
{
    sites
        .iter()
        .any(|site| have_site(library, components, *site))
}

impl<A: Allocator + Copy> DroppedRows<A> {
    /// No rows.
    pub(crate) fn new(alloc: A) -> DroppedRows<A>
        ensures { result ≡ [] }
    {
        DroppedRows {
            sites: Vec::new(alloc),
            faults: Vec::new(alloc),
        }
    }

    /// Adds a row of this site, with its fault.
    pub(crate) fn add(&mut self, site: usize, fault: ReadFault) -> Result<(), AllocError>
        ensures { OnOk result (self.new ≡ with_site site self.old) }
    {
        if !is_one_of(self.sites.as_slice(), site) {
            self.faults.push(fault)?;
            self.sites.push(site)?;
        }
        Ok(())
    }

    // The fault of the first row whose site the macro of one of the components has.
    fn used_row_fault(
        &self,
        library: &Library<'_, A>,
        components: &[Component<'_>],
    ) -> Option<ReadFault> {
        for (i, site) in self.sites.iter().enumerate() {
            if have_site(library, components, *site) {
                return self.faults.get(i).copied();
            }
        }
        None
    }

    /// That no component's macro has the site of one of these rows. Else the first row of such a site is `BadRow`.
    pub(crate) fn are_unused(
        &self,
        library: &Library<'_, A>,
        components: &[Component<'_>],
        end: &Cursor<'_, '_>,
    ) -> Result<(), ReadFault>
        ensures { Means (λ x. x) result (unless (list_any (have_site library.now components.now) self.now)) }
    {
        if have_any_site(library, components, self.sites.as_slice()) {
            let fault = self.used_row_fault(library, components);
            return Err(fault.unwrap_or(end.fault(FaultKind::BadRow)));
        }
        Ok(())
    }
}

//! The entries of a net in both sections of a design.

ghost use Rattle.std.specs.Prelude.{◌≡◌, ◌<◌, length, option_map, IfOk};
ghost use Rattle.leg_lex.specs.NameLookup.{AreApart};
ghost use Rattle.leg_design_records.specs.Records.{net_names};
ghost use Rattle.leg_design_records.specs.WellFormedNets.{HasNets};
ghost use Rattle.leg_rules.specs.Metal.Nets.{number_of_special, regular_entry, special_named, special_alone, special_entry};

use leg_design_records::{Design, Net};
use leg_lex::Names;
use std::alloc::{AllocError, Allocator};
use std::marker::Model;

/// A design, whose entries of nets are found by their names. Contracts see it as the design.
#[derive(Drop)]
pub(crate) struct NetIndex<'d, 'a, A: Allocator + Copy> {
    design: &'d Design<'a, A>,
    nets: Names<'a, A>,
    special: Names<'a, A>,
}

impl<'d, 'a, A: Allocator + Copy> Model for NetIndex<'d, 'a, A> {
    ghost use Rattle.std.specs.Prelude.{◌≡◌};
    ghost use Rattle.leg_design_records.specs.Records.{DesignModel, net_names};

    ghost Value = { DesignModel };

    ghost view = { λ s. s.design.now };

    ghost invariant = { λ s. (s.nets ≡ net_names s.design.now.nets) × (s.special ≡ net_names s.design.now.special) };
}

/// The names of these entries.
fn names_of<'a, A: Allocator + Copy>(
    alloc: A,
    nets: &[Net<'a, A>],
) -> Result<Names<'a, A>, AllocError>
    requires { AreApart (net_names nets.now) }
    ensures { IfOk result (λ names. names ≡ net_names nets.now) }
{
    let mut names = Names::new(alloc);
    for net in nets {
        names.push(net.name.bytes())?;
    }
    Ok(names)
}

impl<'d, 'a, A: Allocator + Copy> NetIndex<'d, 'a, A> {
    /// The design with an index of its entries.
    pub(crate) fn new(
        alloc: A,
        design: &'d Design<'a, A>,
    ) -> Result<NetIndex<'d, 'a, A>, AllocError>
        ensures { IfOk result (λ index. index ≡ design.now) }
    {
        Ok(NetIndex {
            design,
            nets: names_of(alloc, design.nets())?,
            special: names_of(alloc, design.special())?,
        })
    }

    /// The design.
    pub(crate) fn design(&self) -> &'d Design<'a, A>
        ensures { result.now ≡ self.now }
    {
        self.design
    }

    /// The entry of `NETS` of the net of this number.
    pub(crate) fn regular_entry(&self, n: usize) -> Option<&'d Net<'a, A>>
        ensures is { option_map (λ net. net.now) result ≡ regular_entry self.now n }
        ensures proper { HasNets self.now }
    {
        self.design.nets().get(n)
    }

    /// The entry of `SPECIALNETS` of this name.
    fn special_named(&self, name: &[u8]) -> Option<&'d Net<'a, A>>
        ensures { option_map (λ net. net.now) result ≡ special_named self.now name.now }
    {
        let k = self.special.place_of(name)?;
        self.design.special().get(k)
    }

    /// The entry of `SPECIALNETS` of this number, if no entry of `NETS` has its name.
    fn special_alone(&self, k: usize) -> Option<&'d Net<'a, A>>
        ensures { option_map (λ net. net.now) result ≡ special_alone self.now k }
    {
        let net = self.design.special().get(k)?;
        if self.nets.place_of(net.name.bytes()).is_some() {
            return None;
        }
        Some(net)
    }

    /// The entry of `SPECIALNETS` of the net of this number.
    pub(crate) fn special_entry(&self, n: usize) -> Option<&'d Net<'a, A>>
        ensures { option_map (λ net. net.now) result ≡ special_entry self.now n }
    {
        let nets = self.design.nets();
        match nets.get(n) {
            Some(net) => self.special_named(net.name.bytes()),
            None => self.special_alone(n - nets.len()),
        }
    }

    /// The number of the net that entry `k` of `SPECIALNETS` is of.
    pub(crate) fn number_of_special(&self, k: usize, net: &Net<'a, A>) -> usize
        requires { k < length self.now.special }
        ensures { result ≡ number_of_special self.now k net.now }
    {
        let nets = self.design.nets();
        self.nets
            .place_of(net.name.bytes())
            .unwrap_or(nets.len() + k)
    }
}

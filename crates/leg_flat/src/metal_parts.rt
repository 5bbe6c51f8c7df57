//! Shapes of metal, and whose they are.

ghost use Rattle.std.specs.Prelude.{◌≡◌, ◌++◌, ◌∷◌, [], map, OnOk, None, Some, slice_get};
ghost use Rattle.leg_lex.specs.Number.{IsNumber};
ghost use Rattle.leg_lib_records.specs.Records as library;
ghost use Rattle.leg_design_records.specs.declared.records.Terminal.TheVariants.{Comp, Pin};
ghost use Rattle.leg_design_records.specs.Records.{DesignModel};
ghost use Rattle.leg_design_records.specs.WellFormedParts.{IsPosition};
ghost use Rattle.leg_rules.specs.Metal.Outline.Outline.{Shifted};
ghost use Rattle.leg_rules.specs.Metal.Owner.{owner_by_use, lone_owner};
ghost use Rattle.leg_rules.specs.Metal.Metal.{belonging, drawn, of_terminal};
ghost use Rattle.leg_flat.specs.Steps.Places.{AreNetsOf};
ghost use Rattle.leg_flat.specs.Steps.AddedMetal.{AddsMetal, AreDrawnWithin, master_of};

use crate::nets::Nets;
use crate::outline::{drawn_rect, shifted_rect};
use leg_design_records::Terminal;
use leg_geom::{Place, Point, Rect};
use leg_lib_records::Supply;
use leg_rules::{Owner, Shape};
use std::alloc::{AllocError, Allocator};
use std::marker::Model;

/// Whose a shape is, its component if it has one, and which piece of its net it is, if its owner is a net.
#[derive(Clone, Copy)]
pub(crate) struct Belongs {
    pub(crate) owner: Owner,
    pub(crate) component: Option<u32>,
    pub(crate) piece: Option<u32>,
}

impl Model for Belongs {
    ghost use Rattle.leg_rules.specs.Metal.Metal.{Belonging};

    ghost Value = { Belonging };

    ghost view = { λ b. record { owner = b.owner; component = b.component; piece = b.piece } };

    ghost inverse = { λ s. record { owner = s.owner; component = s.component; piece = s.piece } };
}

/// Whose a pin of a component is that is in no net.
fn owner_by_use(terminal: Terminal, supply: Supply) -> Owner
    ensures { (pin : library.MasterPinModel) → pin.supply ≡ supply → result ≡ owner_by_use terminal (Some pin) }
{
    match supply {
        Supply::NoSupply => Owner::Lone(terminal),
        Supply::Power => Owner::Power,
        Supply::Ground => Owner::Ground,
    }
}

/// What the metal of a terminal belongs to, whose owner is this if it is in no net.
fn of_terminal<A: Allocator + Copy>(
    nets: &Nets<A>,
    component: Option<u32>,
    terminal: Terminal,
    lone: Owner,
) -> Belongs
    ensures { (design : DesignModel) → AreNetsOf design nets.now → lone ≡ lone_owner design terminal
        → result ≡ of_terminal design component terminal }
{
    match nets.place_of(&terminal) {
        Some((net, piece)) => Belongs {
            owner: Owner::Net(net),
            component,
            piece: Some(piece),
        },
        None => Belongs {
            owner: lone,
            component,
            piece: None,
        },
    }
}

/// What the metal of a component's pin belongs to, whose `USE` is this.
pub(crate) fn of_component_pin<A: Allocator + Copy>(
    nets: &Nets<A>,
    component: u32,
    pin: usize,
    supply: Supply,
) -> Belongs
    ensures { (design : DesignModel) (master : library.MasterModel) (said : library.MasterPinModel) → AreNetsOf design nets.now
        → master_of design component ≡ Some master → slice_get master.pins pin ≡ Some said → said.supply ≡ supply
        → result ≡ of_terminal design (Some component) (Comp component pin) }
{
    let terminal = Terminal::Comp { component, pin };
    let lone = owner_by_use(terminal, supply);
    of_terminal(nets, Some(component), terminal, lone)
}

/// What the metal of a pin of the design belongs to.
pub(crate) fn of_design_pin<A: Allocator + Copy>(nets: &Nets<A>, pin: u32) -> Belongs
    ensures { (design : DesignModel) → AreNetsOf design nets.now → result ≡ of_terminal design None (Pin pin) }
{
    let terminal = Terminal::Pin(pin);
    of_terminal(nets, None, terminal, Owner::Lone(terminal))
}

/// Adds a rectangle on a layer.
pub(crate) fn add_shape<A: Allocator + Copy>(
    shapes: &mut Vec<Shape, A>,
    layer: usize,
    rect: Rect,
    belongs: &Belongs,
) -> Result<(), AllocError>
    ensures { OnOk result (shapes.new.items ≡ shapes.old.items
        ++ record { layer = layer; rect = rect; owner = belongs.now.owner; component = belongs.now.component; piece = belongs.now.piece } ∷ []) }
{
    shapes.push(Shape {
        layer,
        rect,
        owner: belongs.owner,
        component: belongs.component,
        piece: belongs.piece,
    })?;
    Ok(())
}

/// Adds shapes of a box of this size, which is at a place.
pub(crate) fn add_drawn<A: Allocator + Copy>(
    shapes: &mut Vec<Shape, A>,
    place: &Place,
    width: i64,
    height: i64,
    box_shapes: &[leg_lib_records::Shape],
    belongs: &Belongs,
) -> Result<(), AllocError>
    requires at { IsPosition place.now.at }
    requires width { IsNumber width }
    requires height { IsNumber height }
    requires within { AreDrawnWithin box_shapes.now }
    ensures { OnOk result (AddsMetal (belonging belongs.now (drawn place.now (record { width = width; height = height }) box_shapes.now))
        shapes.old.items shapes.new.items) }
{
    for shape in box_shapes {
        let rect = drawn_rect(place, width, height, &shape.rect);
        add_shape(shapes, shape.layer, rect, belongs)?;
    }
    Ok(())
}

/// Adds shapes that are given from a point.
pub(crate) fn add_shifted<A: Allocator + Copy>(
    shapes: &mut Vec<Shape, A>,
    at: &Point,
    point_shapes: &[leg_lib_records::Shape],
    belongs: &Belongs,
) -> Result<(), AllocError>
    requires at { IsPosition at.now }
    requires within { AreDrawnWithin point_shapes.now }
    ensures { OnOk result (AddsMetal
        (belonging belongs.now (map (λ s. record { layer = s.layer; outline = Shifted at.now s.rect }) point_shapes.now))
        shapes.old.items shapes.new.items) }
{
    for shape in point_shapes {
        let rect = shifted_rect(at, &shape.rect);
        add_shape(shapes, shape.layer, rect, belongs)?;
    }
    Ok(())
}

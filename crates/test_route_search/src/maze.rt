//! A maze: a grid of layers with walls, which counts what it is asked.

ghost use Rattle.std.specs.Prelude.{◌≡◌, ◌<◌, ◌↔◌, IsTrue, true, length};
ghost use Rattle.test_route_search.specs.Maze.{next_of, opens_to, numbered_place, IsNext, IsLinked};

use leg_route_search::{Graph, Side, opposite};
use std::alloc::{AllocError, Allocator};
use std::cell::Cell;

/// A place of a maze: its neighbours, whether it is open, whether the steps to the west and to the east are, how many steps it
/// is from the nearest start at least, and how many are left at least.
#[derive(Clone, Copy)]
pub struct Place {
    pub west: Option<u32>,
    pub east: Option<u32>,
    pub south: Option<u32>,
    pub north: Option<u32>,
    pub below: Option<u32>,
    pub above: Option<u32>,
    pub is_open: bool,
    pub opens_west: bool,
    pub opens_east: bool,
    pub gone: u32,
    pub left: u32,
}

impl Place {
    fn next(&self, side: Side) -> Option<u32>
        ensures { result ≡ next_of self.now side }
    {
        match side {
            Side::West => self.west,
            Side::East => self.east,
            Side::South => self.south,
            Side::North => self.north,
            Side::Below => self.below,
            Side::Above => self.above,
        }
    }

    fn opens(&self, side: Side) -> bool
        ensures { result ≡ opens_to self.now side }
    {
        match side {
            Side::West => self.opens_west,
            Side::East => self.opens_east,
            Side::South | Side::North | Side::Below | Side::Above => true,
        }
    }
}

/// A maze without walls.
#[derive(Clone, Copy)]
pub struct Plan {
    pub width: u32,
    pub height: u32,
    pub layers: u32,
    /// Whether all steps of a layer go along one axis: along x on the lowest layer, along y on the next, and so on.
    pub one_way: bool,
    pub goal: Position,
    pub known: Known,
}

/// Where a place lies: along x, along y, and on which layer.
pub type Position = (u32, u32, u32);

/// What is known of how many steps lie between a place and the nearest start, and between it and the goal.
#[derive(Clone, Copy)]
pub enum Known {
    /// Both are at least the distance along x, y and the layers.
    Both,
    /// The same of the goal; each place but the starts is taken to be a step away from one. So dives soon give up.
    Goal,
    /// The same of the starts, and nothing of the goal: there may be no step left.
    Starts,
}

/// A wall: what it closes.
#[derive(Clone, Copy)]
pub enum Wall {
    /// The place of this number.
    At(usize),
    /// The step to the east of the place of this number, and the step back.
    EastOf(usize),
}

/// What a maze was asked.
#[derive(Clone, Copy)]
pub struct Questions {
    /// How often whether a step is open.
    pub steps: u64,
    /// How often whether a place is.
    pub nodes: u64,
    /// How often the same at most.
    pub most: u32,
}

/// A maze of places, numbered along x, then along y, and then upwards.
#[derive(Drop)]
pub struct Maze<A: Allocator> {
    pub places: Vec<Place, A>,
    plan: Plan,
    /// How often it was asked of each place whether the step to each side is open, and whether it is itself.
    asked: Vec<Cell<u32>, A>,
    /// How often it was asked of each place how many steps are left from it.
    looks: Vec<Cell<u32>, A>,
}

impl<A: Allocator + Copy> Maze<A> {
    /// The maze that is planned, without walls and starts.
    pub fn new(alloc: A, plan: &Plan) -> Result<Maze<A>, AllocError> {
        let area = plan.width.wrapping_mul(plan.height);
        let mut places = Vec::new(alloc);
        let mut position = (0, 0, 0);
        for number in 0..area.wrapping_mul(plan.layers) {
            places.push(open_place(plan, number, position))?;
            position = position_after(plan, position);
        }
        let mut asked = Vec::new(alloc);
        for _ in 0..places.len().wrapping_mul(QUESTIONS) {
            asked.push(Cell::new(0))?;
        }
        let mut looks = Vec::new(alloc);
        for _ in 0..places.len() {
            looks.push(Cell::new(0))?;
        }
        Ok(Maze {
            places,
            plan: *plan,
            asked,
            looks,
        })
    }

    /// Takes these places as the starts: notes of each place how many steps it is from the nearest of them at least.
    pub fn start_at(&mut self, starts: &[u32]) {
        for node in 0..self.places.len() {
            self.places[node].gone = steps_from(
                &self.plan,
                starts,
                u32::try_from(node).unwrap_or(u32::MAX),
            );
        }
    }

    /// Builds the walls, one after the other.
    pub fn close_all(&mut self, walls: &[Wall]) {
        for wall in walls {
            self.close(*wall);
        }
    }

    /// Builds a wall.
    pub fn close(&mut self, wall: Wall) {
        match wall {
            Wall::At(node) => {
                if let Some(place) = self.places.get_mut(node) {
                    place.is_open = false;
                }
            }
            Wall::EastOf(node) => {
                if node < self.places.len() && node + 1 < self.places.len() {
                    self.places[node].opens_east = false;
                    self.places[node + 1].opens_west = false;
                }
            }
        }
    }

    /// Closes places and steps by a rule that looks random.
    pub fn scatter_walls(&mut self, seed: u32) {
        let mut number = seed;
        for node in 0..self.places.len() {
            number = number.wrapping_mul(1_664_525).wrapping_add(1_013_904_223);
            match number >> 28 {
                0..=3 => self.close(Wall::At(node)),
                4..=5 => self.close(Wall::EastOf(node)),
                _ => {}
            }
        }
    }

    /// What it was asked.
    pub fn questions(&self) -> Questions {
        let mut told = Questions {
            steps: 0,
            nodes: 0,
            most: 0,
        };
        for (i, times) in self.asked.iter().enumerate() {
            let times = times.get();
            if i % QUESTIONS == QUESTIONS - 1 {
                told.nodes = told.nodes.wrapping_add(u64::from(times));
            } else {
                told.steps = told.steps.wrapping_add(u64::from(times));
            }
            told.most = told.most.max(times);
        }
        told
    }

    /// How often it was asked how many steps are left from this place.
    pub fn looks_at(&self, node: usize) -> u32 {
        self.looks.get(node).map_or(0, Cell::get)
    }

    /// Counts a question.
    fn count(&self, node: u32, question: usize) {
        let place = (node as usize)
            .wrapping_mul(QUESTIONS)
            .wrapping_add(question);
        if let Some(times) = self.asked.get(place) {
            times.set(times.get().wrapping_add(1));
        }
    }
}

/// How many questions are counted of each place: one for each side, and one of itself.
const QUESTIONS: usize = 7;

/// The position of the next number.
fn position_after(plan: &Plan, position: Position) -> Position {
    let (x, y, layer) = position;
    if x.wrapping_add(1) < plan.width {
        (x.wrapping_add(1), y, layer)
    } else if y.wrapping_add(1) < plan.height {
        (0, y.wrapping_add(1), layer)
    } else {
        (0, 0, layer.wrapping_add(1))
    }
}

/// An open place.
fn open_place(plan: &Plan, number: u32, position: Position) -> Place {
    let (x, y, layer) = position;
    let (width, area) = (plan.width, plan.width.wrapping_mul(plan.height));
    let along_x = !plan.one_way || layer % 2 == 0;
    let along_y = !plan.one_way || layer % 2 == 1;
    let left = match plan.known {
        Known::Both | Known::Goal => steps_between(position, plan.goal),
        Known::Starts => 0,
    };
    Place {
        west: (along_x && x > 0).then_some(number.wrapping_sub(1)),
        east: (along_x && x.wrapping_add(1) < width).then_some(number.wrapping_add(1)),
        south: (along_y && y > 0).then_some(number.wrapping_sub(width)),
        north: (along_y && y.wrapping_add(1) < plan.height).then_some(number.wrapping_add(width)),
        below: (layer > 0).then_some(number.wrapping_sub(area)),
        above: (layer.wrapping_add(1) < plan.layers).then_some(number.wrapping_add(area)),
        is_open: true,
        opens_west: true,
        opens_east: true,
        gone: u32::MAX,
        left,
    }
}

/// The position of the place of this number.
fn position_of(plan: &Plan, number: u32) -> Position {
    let rows = number.checked_div(plan.width).unwrap_or(0);
    let x = number.wrapping_sub(rows.wrapping_mul(plan.width));
    let layer = rows.checked_div(plan.height).unwrap_or(0);
    (x, rows.wrapping_sub(layer.wrapping_mul(plan.height)), layer)
}

/// How many steps there are at least from one of these places to the place, as far as is known.
fn steps_from(plan: &Plan, starts: &[u32], node: u32) -> u32 {
    let mut least = u32::MAX;
    for start in starts {
        let steps = match plan.known {
            Known::Both => steps_between(position_of(plan, *start), position_of(plan, node)),
            Known::Goal | Known::Starts => u32::from(*start != node),
        };
        least = least.min(steps);
    }
    least
}

/// How many steps there are at least from one place to another.
fn steps_between(from: Position, to: Position) -> u32 {
    let along = from.0.abs_diff(to.0).wrapping_add(from.1.abs_diff(to.1));
    along.wrapping_add(from.2.abs_diff(to.2))
}

/// Whether the second place is the neighbour on this side of the first, at most one step nearer to the goal and one further from
/// the start.
fn is_linked(places: &[Place], node: u32, side: Side, to: u32) -> bool
    requires node { node < length places.now }
    requires to { to < length places.now }
    ensures { IsTrue result ↔ IsLinked places.now side node to }
{
    let place = &places[node as usize];
    let next = &places[to as usize];
    place.next(side) == Some(to)
        && u64::from(place.left) <= u64::from(next.left) + 1
        && u64::from(next.gone) <= u64::from(place.gone) + 1
}

/// The number of a side.
fn number_of(side: Side) -> usize {
    match side {
        Side::West => 0,
        Side::East => 1,
        Side::South => 2,
        Side::North => 3,
        Side::Below => 4,
        Side::Above => 5,
    }
}

impl<A: Allocator + Copy> Graph for Maze<A> {
    ghost use Rattle.test_route_search.specs.Maze.{opens_to, numbered_place, IsNext, next_both_ways};

    ghost size_of = { λ m. length m.places.items };

    ghost IsBeside = { λ m side a b. IsNext m.places.items side a b };

    ghost OpenNode = { λ m a. (numbered_place m.places.items a).is_open ≡ true };

    ghost OpenStep = { λ m side a. opens_to (numbered_place m.places.items a) side ≡ true };

    ghost bound_of = { λ m a. (numbered_place m.places.items a).left };

    ghost back_bound_of = { λ m a. (numbered_place m.places.items a).gone };

    fn beside(&self, node: u32, side: Side) -> Option<u32> {
        let to = self.places[node as usize].next(side)?;
        if (to as usize) < self.places.len()
            && is_linked(&self.places, node, side, to)
            && is_linked(&self.places, to, opposite(side), node)
        {
            Some(to)
        } else {
            None
        }
    }

    fn is_open_step(&self, node: u32, side: Side) -> bool {
        self.count(node, number_of(side));
        self.places[node as usize].opens(side)
    }

    fn is_open_node(&self, node: u32) -> bool {
        self.count(node, QUESTIONS - 1);
        self.places[node as usize].is_open
    }

    fn bound(&self, node: u32, most: u32) -> u32 {
        if let Some(times) = self.looks.get(node as usize) {
            times.set(times.get().wrapping_add(1));
        }
        most.min(self.places[node as usize].left)
    }

    fn back_bound(&self, node: u32, most: u32) -> u32 {
        most.min(self.places[node as usize].gone)
    }

    ghost one_nearer = { λ m side a b beside. beside.there.2 };

    ghost one_further = { λ m side a b beside. beside.there.3 };

    ghost both_ways = { λ m side a b beside. next_both_ways m.places.items side a b beside };
}

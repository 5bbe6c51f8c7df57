//! Walks in mazes: which of the shortest is taken, what is asked, and how often.

ghost use Rattle.std.specs.Prelude.{◌≡◌, ◌<◌, ◌^◌, ℕ, true, length, All, Contains};
ghost use Rattle.test_route_search.specs.Maze.{numbered_place};

use crate::maze::{Known, Maze, Plan, Wall};
use leg_route_search::{Marks, shortest};
use std::alloc::Global;
use std::process::Abort;

/// Whether all of these are places.
fn are_places(maze: &Maze<Global>, nodes: &[u32]) -> bool
    ensures { result ≡ true → All (λ a. a < length maze.now.places.items) nodes.now }
{
    for node in nodes {
        if *node as usize >= maze.places.len() {
            return false;
        }
    }
    true
}

/// Whether no steps are left from any of these.
fn are_goals(maze: &Maze<Global>, nodes: &[u32]) -> bool
    requires { All (λ a. a < length maze.now.places.items) nodes.now }
    ensures { result ≡ true → All (λ a. (numbered_place maze.now.places.items a).left ≡ 0) nodes.now }
{
    for node in nodes {
        if maze.places[*node as usize].left != 0 {
            return false;
        }
    }
    true
}

/// Whether no steps lie between a start and any of these.
fn are_starts(maze: &Maze<Global>, nodes: &[u32]) -> bool
    requires { All (λ a. a < length maze.now.places.items) nodes.now }
    ensures { result ≡ true → All (λ a. (numbered_place maze.now.places.items a).gone ≡ 0) nodes.now }
{
    for node in nodes {
        if maze.places[*node as usize].gone != 0 {
            return false;
        }
    }
    true
}

/// Whether each place of which no steps lie between it and a start is one of these.
fn are_all_starts(maze: &Maze<Global>, nodes: &[u32]) -> bool
    requires { length maze.now.places.items < 2 ^ 32 }
    ensures { result ≡ true → (a : ℕ) → a < length maze.now.places.items → (numbered_place maze.now.places.items a).gone ≡ 0 → Contains nodes.now a }
{
    for place in 0..maze.places.len() {
        if maze.places[place].gone == 0 && !nodes.contains(&(place as u32)) {
            return false;
        }
    }
    true
}

/// A shortest walk, found with marks that an earlier search may have left.
fn walk_with(
    rt: &impl Abort,
    alloc: Global,
    maze: &Maze<Global>,
    starts: &[u32],
    ends: &[u32],
    marks: &mut Marks<Global>,
) -> Option<Vec<u32>>
    requires { length marks.old ≡ length maze.now.places.items }
    ensures { length marks.new ≡ length marks.old }
{
    assert!(rt; maze.places.len() < 1 << 32);
    assert!(rt; are_places(maze, starts) && are_places(maze, ends) && are_goals(maze, ends));
    assert!(rt; are_starts(maze, starts) && are_all_starts(maze, starts));
    shortest(alloc, maze, starts, ends, marks).expect(rt, "memory")
}

/// A shortest walk.
fn walk(
    rt: &impl Abort,
    alloc: Global,
    maze: &Maze<Global>,
    starts: &[u32],
    ends: &[u32],
) -> Option<Vec<u32>> {
    let mut marks = Marks::new(alloc, maze.places.len()).expect(rt, "memory");
    walk_with(rt, alloc, maze, starts, ends, &mut marks)
}

/// A search in a maze.
#[derive(Clone, Copy)]
struct Search<'a> {
    /// What is closed before it, in addition to what was.
    walls: &'a [Wall],
    starts: &'a [u32],
    ends: &'a [u32],
    found: Found<'a>,
}

/// What a search finds.
#[derive(Clone, Copy)]
enum Found<'a> {
    Nothing,
    /// A walk over these places.
    Walk(&'a [u32]),
    /// A walk over this many places.
    Long(usize),
}

fn is_found(walk: Option<&[u32]>, expected: Found) -> bool {
    match (walk, expected) {
        (None, Found::Nothing) => true,
        (Some(walk), Found::Walk(places)) => walk == places,
        (Some(walk), Found::Long(count)) => walk.len() == count,
        _ => false,
    }
}

/// Makes the searches, one after the other.
fn check_searches(rt: &impl Abort, alloc: Global, maze: &mut Maze<Global>, searches: &[Search]) {
    for search in searches {
        maze.close_all(search.walls);
        maze.start_at(search.starts);
        let found = walk(rt, alloc, maze, search.starts, search.ends);
        assert!(rt; is_found(found.as_deref(), search.found), "found {found:?}");
    }
}

fn open_maze(rt: &impl Abort, alloc: Global, plan: &Plan) -> Maze<Global> {
    Maze::new(alloc, plan).expect(rt, "memory")
}

/// Makes the searches in a new maze.
fn check_maze(rt: &impl Abort, alloc: Global, plan: &Plan, searches: &[Search]) {
    check_searches(rt, alloc, &mut open_maze(rt, alloc, plan), searches);
}

/// One layer whose places are numbered by rows from the south, five to a row.
static FOUR_ROWS: Plan = Plan {
    width: 5,
    height: 4,
    layers: 1,
    one_way: false,
    goal: (4, 3, 0),
    known: Known::Both,
};

/// The same with nothing known of the goal.
static ROWS_WITHOUT_GOAL: Plan = Plan {
    width: 5,
    height: 4,
    layers: 1,
    one_way: false,
    goal: (4, 3, 0),
    known: Known::Starts,
};

#[test]
fn comes_from_the_west_and_else_from_the_south(rt: HostRuntime) {
    static SEARCHES: [Search; 3] = [
        Search {
            walls: &[],
            starts: &[0],
            ends: &[19],
            found: Found::Walk(&[0, 5, 10, 15, 16, 17, 18, 19]),
        },
        Search {
            walls: &[Wall::At(16)],
            starts: &[0],
            ends: &[19],
            found: Found::Walk(&[0, 5, 10, 11, 12, 17, 18, 19]),
        },
        Search {
            walls: &[Wall::EastOf(10)],
            starts: &[0],
            ends: &[19],
            found: Found::Walk(&[0, 5, 6, 11, 12, 17, 18, 19]),
        },
    ];
    check_maze(&rt, rt.alloc(), &FOUR_ROWS, &SEARCHES);
}

#[test]
fn comes_from_the_east_before_the_south_and_from_below_last(rt: HostRuntime) {
    static PLAN_UP: Plan = Plan {
        width: 3,
        height: 3,
        layers: 2,
        one_way: false,
        goal: (0, 2, 1),
        known: Known::Both,
    };
    static UP: [Search; 1] = [Search {
        walls: &[],
        starts: &[2],
        ends: &[15],
        found: Found::Walk(&[2, 11, 14, 17, 16, 15]),
    }];
    static PLAN_DOWN: Plan = Plan {
        width: 3,
        height: 3,
        layers: 2,
        one_way: false,
        goal: (0, 0, 0),
        known: Known::Both,
    };
    static DOWN: [Search; 1] = [Search {
        walls: &[],
        starts: &[15],
        ends: &[0],
        found: Found::Walk(&[15, 6, 3, 0]),
    }];
    check_maze(&rt, rt.alloc(), &PLAN_UP, &UP);
    check_maze(&rt, rt.alloc(), &PLAN_DOWN, &DOWN);
}

#[test]
fn takes_the_least_of_the_nearest_ends(rt: HostRuntime) {
    static SEARCHES: [Search; 3] = [
        Search {
            walls: &[],
            starts: &[0, 0],
            ends: &[19, 6, 10, 2, 6],
            found: Found::Walk(&[0, 1, 2]),
        },
        Search {
            walls: &[Wall::At(2)],
            starts: &[0],
            ends: &[10, 6, 2, 19],
            found: Found::Walk(&[0, 5, 6]),
        },
        Search {
            walls: &[],
            starts: &[18, 0],
            ends: &[10, 6, 19],
            found: Found::Walk(&[18, 19]),
        },
    ];
    check_maze(&rt, rt.alloc(), &ROWS_WITHOUT_GOAL, &SEARCHES);
}

#[test]
fn stays_where_a_start_is_an_end(rt: HostRuntime) {
    static SEARCHES: [Search; 3] = [
        Search {
            walls: &[],
            starts: &[7, 3, 9],
            ends: &[3, 7],
            found: Found::Walk(&[3]),
        },
        Search {
            walls: &[Wall::At(3)],
            starts: &[7, 3, 9],
            ends: &[3, 7],
            found: Found::Walk(&[7]),
        },
        Search {
            walls: &[Wall::At(7)],
            starts: &[7, 3],
            ends: &[3, 7],
            found: Found::Nothing,
        },
    ];
    check_maze(&rt, rt.alloc(), &ROWS_WITHOUT_GOAL, &SEARCHES);
}

#[test]
fn finds_no_walk_through_a_wall(rt: HostRuntime) {
    static SEARCHES: [Search; 4] = [
        Search {
            walls: &[Wall::At(2), Wall::At(7), Wall::At(12), Wall::At(17)],
            starts: &[0],
            ends: &[19],
            found: Found::Nothing,
        },
        Search {
            walls: &[],
            starts: &[],
            ends: &[19],
            found: Found::Nothing,
        },
        Search {
            walls: &[],
            starts: &[0],
            ends: &[],
            found: Found::Nothing,
        },
        Search {
            walls: &[],
            starts: &[18],
            ends: &[19],
            found: Found::Walk(&[18, 19]),
        },
    ];
    check_maze(&rt, rt.alloc(), &FOUR_ROWS, &SEARCHES);
}

#[test]
fn goes_a_long_way_round_a_wall(rt: HostRuntime) {
    static PLAN: Plan = Plan {
        width: 20,
        height: 20,
        layers: 1,
        one_way: false,
        goal: (19, 0, 0),
        known: Known::Both,
    };
    static SEARCHES: [Search; 1] = [Search {
        walls: &[],
        starts: &[0],
        ends: &[19],
        found: Found::Long(58),
    }];
    let mut maze = open_maze(&rt, rt.alloc(), &PLAN);
    for row in 0..19 {
        maze.close(Wall::At(20 * row + 10));
    }
    check_searches(&rt, rt.alloc(), &mut maze, &SEARCHES);
}

#[test]
fn looks_for_no_walk_to_closed_ends(rt: HostRuntime) {
    static SEARCHES: [Search; 1] = [Search {
        walls: &[Wall::At(12), Wall::At(19)],
        starts: &[0],
        ends: &[19, 19],
        found: Found::Nothing,
    }];
    let mut maze = open_maze(&rt, rt.alloc(), &FOUR_ROWS);
    check_searches(&rt, rt.alloc(), &mut maze, &SEARCHES);
    let asked = maze.questions();
    assert!(rt; asked.steps == 0 && asked.nodes < 4);
}

#[test]
fn asks_nothing_twice_in_a_round(rt: HostRuntime) {
    static SEARCHES: [Search; 1] = [Search {
        walls: &[Wall::At(1), Wall::At(8), Wall::At(16)],
        starts: &[0],
        ends: &[19],
        found: Found::Long(8),
    }];
    let mut maze = open_maze(&rt, rt.alloc(), &FOUR_ROWS);
    check_searches(&rt, rt.alloc(), &mut maze, &SEARCHES);
    assert!(rt; maze.questions().most == 1);
}

#[test]
fn keeps_near_a_shortest_walk_in_the_open(rt: HostRuntime) {
    static PLAN: Plan = Plan {
        width: 200,
        height: 200,
        layers: 6,
        one_way: true,
        goal: (150, 150, 0),
        known: Known::Both,
    };
    static SEARCHES: [Search; 1] = [Search {
        walls: &[],
        starts: &[10_050],
        ends: &[30_150],
        found: Found::Long(203),
    }];
    let mut maze = open_maze(&rt, rt.alloc(), &PLAN);
    check_searches(&rt, rt.alloc(), &mut maze, &SEARCHES);
    let asked = maze.questions();
    assert!(rt; asked.nodes < 250 && asked.steps < 400 && asked.most == 2);
}

#[test]
fn looks_seldom_at_starts(rt: HostRuntime) {
    static PLAN: Plan = Plan {
        width: 300,
        height: 40,
        layers: 1,
        one_way: false,
        goal: (19, 0, 0),
        known: Known::Goal,
    };
    static SEARCHES: [Search; 1] = [Search {
        walls: &[],
        starts: &[0, 299],
        ends: &[19],
        found: Found::Long(98),
    }];
    let mut maze = open_maze(&rt, rt.alloc(), &PLAN);
    for row in 0..39 {
        maze.close(Wall::At(300 * row + 10));
    }
    check_searches(&rt, rt.alloc(), &mut maze, &SEARCHES);
    let looks = (maze.looks_at(0), maze.looks_at(299));
    assert!(rt; looks.0 < 4 && looks.1 < 3, "looked {looks:?} times");
}

/// A maze with walls that look random, in which a walk is looked for from place 38 to place 250.
fn maze_by_seed(rt: &impl Abort, alloc: Global, seed: u32, known: Known) -> Maze<Global> {
    let plan = Plan {
        width: 12,
        height: 12,
        layers: 2,
        one_way: false,
        goal: (10, 8, 1),
        known,
    };
    let mut maze = open_maze(rt, alloc, &plan);
    maze.scatter_walls(seed);
    maze.start_at(&[38]);
    maze
}

/// The walk through these walls.
fn walk_by_seed(rt: &impl Abort, alloc: Global, seed: u32, known: Known) -> Option<Vec<u32>> {
    let maze = maze_by_seed(rt, alloc, seed, known);
    walk(rt, alloc, &maze, &[38], &[250])
}

#[test]
fn takes_the_same_walk_with_dives_and_without(rt: HostRuntime) {
    for seed in 0..60 {
        let dived = walk_by_seed(&rt, rt.alloc(), seed, Known::Both);
        let spread = walk_by_seed(&rt, rt.alloc(), seed, Known::Goal);
        assert!(rt; dived == spread, "at {seed}");
    }
}

#[test]
fn takes_the_same_walk_with_the_marks_of_an_earlier_search(rt: HostRuntime) {
    for seed in 0..60 {
        let maze = maze_by_seed(&rt, rt.alloc(), seed, Known::Goal);
        let mut marks = Marks::new(rt.alloc(), maze.places.len()).expect(&rt, "memory");
        let first = walk_with(&rt, rt.alloc(), &maze, &[38], &[250], &mut marks);
        let second = walk_with(&rt, rt.alloc(), &maze, &[38], &[250], &mut marks);
        assert!(rt; first == second, "at {seed}");
    }
}

//! What lies near a rectangle.

ghost use Rattle.std.specs.Prelude.{◌≡◌, ◌<◌, ◌∷◌, [], length, All, MatchOption};
ghost use Rattle.std.specs.List.{filter};
ghost use Rattle.leg_sweep.specs.NearNumbers.{is_near, number_in, near_numbers};
ghost use Rattle.leg_sweep.specs.Steps.Nodes.{IsSearch};

use crate::bounds::Window;
use crate::node::{Content, Node};
use leg_geom::Rect;
use std::marker::Model;

/// The numbers of the rectangles of an index that lie near one. Contracts see it as the list of those that are left to give.
#[derive(Drop)]
pub struct Near<'a> {
    rects: &'a [Rect],
    left: &'a [Node],
    window: Window,
}

impl<'a> Model for Near<'a> {
    ghost use Rattle.std.specs.Prelude.{ℕ, List};
    ghost use Rattle.leg_sweep.specs.NearNumbers.{near_numbers};
    ghost use Rattle.leg_sweep.specs.Steps.Nodes.{IsSearch};

    ghost Value = { List ℕ };

    ghost view = { λ s. near_numbers s.rects.now s.window.rect s.window.reach s.left.now };

    ghost invariant = { λ s. IsSearch s.rects.now s.window s.left.now };
}

impl<'a> Near<'a> {
    /// The numbers in these nodes of the rectangles that reach into the window.
    pub(crate) fn new(rects: &'a [Rect], nodes: &'a [Node], window: Window) -> Near<'a>
        requires { IsSearch rects.now window nodes.now }
        ensures { result ≡ near_numbers rects.now window.rect window.reach nodes.now }
    {
        Near {
            rects,
            left: nodes,
            window,
        }
    }
}

impl<'a> Iterator for Near<'a> {
    ghost use Rattle.std.specs.Iterator.{YieldsFirst, item_count};

    type Item = u32;

    ghost next_gives = { YieldsFirst (λ s. s) };

    ghost remaining = { item_count (λ s. s) };

    fn next(&mut self) -> Option<u32> {
        let (number, left) = first_near(self.rects, self.left, &self.window);
        self.left = left;
        number
    }
}

/// The first of these nodes' rectangles that reaches into the window, and the nodes after it. A group that can't reach
/// into the window is passed over with all its members.
fn first_near<'a>(rects: &[Rect], nodes: &'a [Node], window: &Window) -> (Option<u32>, &'a [Node])
    requires { IsSearch rects.now window.now nodes.now }
    ensures gives { let near = near_numbers rects.now window.now.rect window.now.reach in
        MatchOption result.0 ((near nodes.now ≡ []) × (near result.1.now ≡ [])) (λ number. near nodes.now ≡ number ∷ near result.1.now) }
    ensures search { IsSearch rects.now window.now result.1.now }
{
    let mut left = nodes;
    while let Some((node, rest)) = left.split_first() {
        if !window.can_meet(&node.bounds) {
            left = &rest[node.members()..];
            continue;
        }
        left = rest;
        if let Some(number) = near_in(rects, node.content, window) {
            return (Some(number), rest);
        }
    }
    (None, left)
}

/// The number of a node's rectangle, where that reaches into the window.
fn near_in(rects: &[Rect], content: Content, window: &Window) -> Option<u32>
    requires { All (λ number. number < length rects.now) (number_in content) }
    ensures { let near = filter (is_near rects.now window.now.rect window.now.reach) (number_in content) in
        MatchOption result (near ≡ []) (λ number. near ≡ number ∷ []) }
{
    match content {
        Content::Rect(number) if window.meets(&rects[number as usize]) => Some(number),
        _ => None,
    }
}

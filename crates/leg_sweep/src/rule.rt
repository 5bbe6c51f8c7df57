//! What it means that two items meet.

ghost use Rattle.std.specs.Prelude.{◌≡◌, ◌≤◌, ◌<◌, ◌+◌, ◌-◌, ◌^◌, ◌↔◌, ℕ, pos, IsTrue};
ghost use Rattle.leg_geom.specs.Plane.{RectModel, IsRect};
ghost use Rattle.leg_geom.specs.Gap.{x_gap, y_gap};

/// A rule for pairs of items that lie in the plane. Its meaning gives each item a rectangle, and defines
/// for two items whether the rule holds of them.
///
/// A rule counts how often it was asked: a call of `meets` is a test, a call of `gaps` a look. Nothing
/// else of its meaning changes, as `fixed` states: it is the rule with both counts at 0.
pub trait PairRule {
    /// What the rule is asked about.
    type Item;

    ghost fixed: { Self → Self };

    ghost Holds: { Self → Self.Item → Self.Item → Type 0 };

    ghost rect_of: { Self → Self.Item → RectModel };

    ghost reach_of: { Self → ℕ };

    ghost tests_of: { Self → ℕ };

    ghost looks_of: { Self → ℕ };

    /// The left edge of the item's rectangle.
    fn left(&self, item: &Self::Item) -> i64
        ensures is { result ≡ (rect_of (fixed self.now) item.now).x1 }
        ensures proper { IsRect (rect_of (fixed self.now) item.now) };

    /// How far apart two items can be for which the rule holds, along each axis: 0 or more.
    fn reach(&self) -> i64
        ensures { result ≡ pos (reach_of (fixed self.now)) };

    /// The x gap and the y gap of the two items' rectangles. A look.
    fn gaps(&mut self, a: &Self::Item, b: &Self::Item) -> (i64, i64)
        requires { looks_of self.old < 2 ^ 64 - 1 }
        ensures x { result.0 ≡ pos (x_gap (rect_of (fixed self.old) a.now) (rect_of (fixed self.old) b.now)) }
        ensures y { result.1 ≡ pos (y_gap (rect_of (fixed self.old) a.now) (rect_of (fixed self.old) b.now)) }
        ensures looks { looks_of self.new ≡ looks_of self.old + 1 }
        ensures tests { tests_of self.new ≡ tests_of self.old }
        ensures same { fixed self.new ≡ fixed self.old };

    /// Whether the rule holds of the two items. A test.
    fn meets(&mut self, a: &Self::Item, b: &Self::Item) -> bool
        requires { tests_of self.old < 2 ^ 64 - 1 }
        ensures answer { IsTrue result ↔ Holds (fixed self.old) a.now b.now }
        ensures tests { tests_of self.new ≡ tests_of self.old + 1 }
        ensures looks { looks_of self.new ≡ looks_of self.old }
        ensures same { fixed self.new ≡ fixed self.old };

    /// How many tests were made.
    fn tests(&self) -> u64
        ensures { result ≡ tests_of self.now };

    /// How many looks were taken.
    fn looks(&self) -> u64
        ensures { result ≡ looks_of self.now };

    // The rule is symmetric.
    ghost symmetric: { (r : Self) (a b : Self.Item) → Holds r a b → Holds r b a };

    // Where the rule holds, both gaps are within the reach.
    ghost near: { (r : Self) (a b : Self.Item) → Holds r a b →
        (x_gap (rect_of r a) (rect_of r b) ≤ reach_of r) × (y_gap (rect_of r a) (rect_of r b) ≤ reach_of r) };
}

/// A rule whose items lie on layers, and which holds only of items of one layer. Each layer has a reach of its own.
pub trait LayeredRule: PairRule {
    ghost layers_of: { Self → ℕ };

    ghost layer_of: { Self → Self.Item → ℕ };

    ghost layer_reach_of: { Self → ℕ → ℕ };

    /// How many layers there are.
    fn layers(&self) -> usize
        ensures { result ≡ layers_of (Self.fixed self.now) };

    /// The number of the item's layer.
    fn layer(&self, item: &Self::Item) -> usize
        ensures is { result ≡ layer_of (Self.fixed self.now) item.now }
        ensures below { result < layers_of (Self.fixed self.now) };

    /// How far apart two items of the layer can be for which the rule holds, along each axis.
    fn layer_reach(&self, layer: usize) -> u64
        ensures { result ≡ layer_reach_of (Self.fixed self.now) layer };

    /// The bottom edge of the item's rectangle.
    fn bottom(&self, item: &Self::Item) -> i64
        ensures is { result ≡ (Self.rect_of (Self.fixed self.now) item.now).y1 }
        ensures proper { IsRect (Self.rect_of (Self.fixed self.now) item.now) };

    /// The top edge of the item's rectangle.
    fn top(&self, item: &Self::Item) -> i64
        ensures is { result ≡ (Self.rect_of (Self.fixed self.now) item.now).y2 }
        ensures proper { IsRect (Self.rect_of (Self.fixed self.now) item.now) };

    // Where the rule holds, both items lie on one layer.
    ghost layered: { (r : Self) (a b : Self.Item) → Self.Holds r a b → layer_of r a ≡ layer_of r b };

    // Where the rule holds, both gaps are within the reach of the layer.
    ghost near_on_layer: { (r : Self) (a b : Self.Item) → Self.Holds r a b →
        (x_gap (Self.rect_of r a) (Self.rect_of r b) ≤ layer_reach_of r (layer_of r a))
        × (y_gap (Self.rect_of r a) (Self.rect_of r b) ≤ layer_reach_of r (layer_of r a)) };
}

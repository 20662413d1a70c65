ghost use Rattle.std.specs.Prelude.{◌≡◌, ◌≢◌, true};
ghost use Rattle.point_trees.specs.Trees as trees;

use gx_base::Spot;
use std::cmp::Ordering;

/// A direction in which a node splits the plane.
#[derive(Clone, Copy, Drop)]
pub enum Axis {
    X,
    Y,
}

/// A node of the tree with its point. One that isn't live was taken out. Under one that is bare nothing is live, so a
/// search passes it by; which nodes are bare, and which node is above one, matters for speed alone. Above the root is any.
#[derive(Clone, Copy, Drop)]
pub struct Node {
    pub spot: Spot,
    pub live: bool,
    pub bare: bool,
    pub axis: Axis,
    pub depth: usize,
    pub up: usize,
    pub left: Option<usize>,
    pub right: Option<usize>,
}

/// Where a spot belongs: at its own node, on the free side of a node, or at the root of an empty tree.
#[derive(Clone, Copy, Drop)]
pub enum Seat {
    Found(usize),
    Free(usize, bool),
    Empty,
}

pub fn coordinate(axis: Axis, spot: Spot) -> i64
    ensures { result ≡ trees.coordinate axis spot }
{
    match axis {
        Axis::X => spot.x,
        Axis::Y => spot.y,
    }
}

/// The other direction.
pub fn crossed(axis: Axis) -> Axis
    ensures { result ≢ axis }
{
    match axis {
        Axis::X => Axis::Y,
        Axis::Y => Axis::X,
    }
}

/// The order of spots of which neither comes before the other along an axis.
fn order_of_level(p: Spot, q: Spot) -> Ordering
    ensures { result ≡ trees.level_cmp p q }
{
    p.x.cmp(&q.x)
        .then(p.y.cmp(&q.y).then(p.z.cmp(&q.z).then(p.id.cmp(&q.id))))
}

/// The order of spots along an axis: by the coordinate, then by the others, and then by the number. So spots of
/// equal coordinates are split too.
pub fn order(axis: Axis, p: Spot, q: Spot) -> Ordering
    ensures { result ≡ trees.spot_cmp axis p q }
{
    match coordinate(axis, p).cmp(&coordinate(axis, q)) {
        Ordering::Less => Ordering::Less,
        Ordering::Equal => order_of_level(p, q),
        Ordering::Greater => Ordering::Greater,
    }
}

/// Whether a spot stands on the left side of a node.
pub fn is_left(node: Node, spot: Spot) -> bool
    ensures { result ≡ trees.is_left node spot }
{
    let here = coordinate(node.axis, spot);
    let plane = coordinate(node.axis, node.spot);
    here < plane || (here == plane && order_of_level(spot, node.spot).is_lt())
}

pub fn child(node: Node, left: bool) -> Option<usize>
    ensures { result ≡ trees.child node left }
{
    if left { node.left } else { node.right }
}

/// Whether a node holds the point of a number.
pub fn is_point_of(node: Node, id: i64) -> bool
    ensures { result ≡ trees.is_point_of id node }
{
    node.live && node.spot.id == id
}

pub fn is_same(p: Spot, q: Spot) -> bool
    ensures same { result ≡ true → p ≡ q }
    ensures other { p ≡ q → result ≡ true }
{
    p.id == q.id && p.x == q.x && p.y == q.y && p.z == q.z
}

/// A node without children.
pub fn leaf(axis: Axis, spot: Spot, depth: usize, up: usize) -> Node
    ensures { result ≡ trees.leaf_of axis spot depth up }
{
    Node {
        spot,
        live: true,
        bare: false,
        axis,
        depth,
        up,
        left: None,
        right: None,
    }
}

/// The node with a child on a side.
pub fn link(node: Node, left: bool, key: usize) -> Node
    ensures { result ≡ trees.linked node left key }
{
    if left {
        Node {
            left: Some(key),
            ..node
        }
    } else {
        Node {
            right: Some(key),
            ..node
        }
    }
}

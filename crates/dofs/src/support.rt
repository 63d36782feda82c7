//! The vertices of a label, with their weights.

ghost use Rattle.std.specs.Prelude.{◌≡◌, ◌≤◌, List, length};
ghost use Rattle.calculus.specs.LocalFunction.{degree_of as weight_sum};
ghost use Rattle.dofs.specs.Label.{Weighted, put, weighted};
ghost use Rattle.dofs.specs.Arrays.{support_of};

/// At most three vertices by rising number, with positive weights. Zeros stand behind them, so that supports of as many vertices
/// are compared as their lists are.
#[derive(Clone, Copy, Debug, PartialEq, Eq, PartialOrd, Ord)]
pub struct Support {
    pub count: u8,
    pub vertices: [u32; 3],
    pub weights: [u8; 3],
}

impl Support {
    /// Without a vertex.
    pub const EMPTY: Support = Support {
        count: 0,
        vertices: [0; 3],
        weights: [0; 3],
    };
}

/// With one vertex more, in its place.
fn with(support: Support, vertex: u32, weight: u8) -> Support
    requires { support.count ≤ 2 }
    ensures { (ps : List Weighted) → support ≡ support_of ps → result ≡ support_of (put (record { vertex = vertex; weight = weight }) ps) }
{
    let [first, second, _] = support.vertices;
    let [a, b, _] = support.weights;
    let (vertices, weights) = match support.count {
        0 => ([vertex, 0, 0], [weight, 0, 0]),
        1 if vertex < first => ([vertex, first, 0], [weight, a, 0]),
        1 => ([first, vertex, 0], [a, weight, 0]),
        _ if vertex < first => ([vertex, first, second], [weight, a, b]),
        _ if vertex < second => ([first, vertex, second], [a, weight, b]),
        _ => ([first, second, vertex], [a, b, weight]),
    };
    Support {
        count: support.count + 1,
        vertices,
        weights,
    }
}

/// Of the local node with these weights on a cell with these vertices.
pub fn node_support(vertices: &[u32], weights: [u8; 4]) -> Support
    requires vertices { length vertices.now ≤ 4 }
    requires weights { weight_sum weights ≤ 3 }
    ensures { result ≡ support_of (weighted vertices.now weights) }
{
    let mut found = Support::EMPTY;
    let mut i = vertices.len();
    'vertices: while i > 0 {
        i -= 1;
        if weights[i] > 0 {
            found = with(found, vertices[i], weights[i]);
        }
    }
    found
}

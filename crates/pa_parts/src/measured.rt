//! Trees with their heights.

ghost use Rattle.std.specs.Prelude.{◌≡◌, ◌≤◌, suc};

/// A tree and its height: the most levels on a path of it. The height is carried along, so that it is never counted again.
#[derive(Drop)]
pub struct Measured<T> {
    pub tree: T,
    pub height: u32,
}

impl<T> Measured<T> {
    /// A node over parts, the highest of which has this height.
    pub fn node(tree: T, parts: u32) -> Measured<T>
        requires { parts ≤ 200 }
        ensures tree { result.tree ≡ tree }
        ensures height { result.height ≡ suc parts }
    {
        Measured {
            tree,
            height: parts + 1,
        }
    }
}

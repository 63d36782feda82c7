//! Meshes: points with exact coordinates, and cells of one kind on them, read from their text.
//!
//! `read_mesh` takes exactly the texts of the mesh format (docs/FORMATS.md), and names the first bad line of every other text.
//! `read_mesh_of` wants a mesh of one kind of cells, and names the header of any other.
#![tactic(auto)]

mod header;
pub mod laws;
mod lines;
mod mesh;
mod read;
mod refusal;
mod rows;
mod words;

pub use mesh::{CellView, Mesh};
pub use read::{MESH_LIMIT, read_mesh, read_mesh_of};
pub use refusal::{MeshKind, MeshRefusal};

#[cfg(test)]
mod tests;

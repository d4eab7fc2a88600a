//! Vectors sixteen at a time: by columns or by words, with a front that guesses a vector by its hash. They tell which
//! values of lines at sixteen of them are known to be vectors that are there. Nothing here knows of operations: a line
//! gives a value for each element at a coordinate, whatever it comes from.
//!
//! A block is sixteen vectors, here u, v, .., w, stored twice: by columns, and as keys.
//!
//! ```text
//!          tile 0, coordinates 0 to 15    tile 1, 16 to 31       key: the words of one vector
//!         column 0  column 1 .. column 15  column 16 ..          word 0          word 1 ..
//! lane 0    u[0]      u[1]  ..  u[15]        u[16]   ..          u[0] .. u[15]   u[16] ..   <- front: by a hash of a
//! lane 1    v[0]      v[1]  ..  v[15]        v[16]   ..          v[0] .. v[15]   v[16] ..      key the number of a
//!  ..                                                                                         vector, as a guess that
//! lane 15   w[0]      w[1]  ..  w[15]        w[16]   ..          w[0] .. w[15]   w[16] ..      the key then decides
//!
//! line of coordinate x: the values at x for the elements 0, 1, 2, .. in the free place. Looked up in it,
//! column x becomes the values at x of all sixteen vectors at once.
//! ```
//!
//! An entry takes half a byte of a word where each is below sixteen, else a byte, so a word has sixteen or eight.
#![tactic(auto)]

mod blocks;
mod columns;
mod fronts;
mod key_blocks;
mod quad_lists;
mod quads;
mod tiles;

pub use columns::{Columns, set_entry};
pub use quad_lists::Quads;
pub use tiles::{LANES, Tile, push_tiles};

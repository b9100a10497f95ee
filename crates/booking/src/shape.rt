ghost use Rattle.booking.specs.Shapes.{row, table};
ghost use Rattle.std.specs.Prelude.{◌≡◌};

use crate::kind::Kind;

/// What a block is, apart from its elements and where it lies. Any values can be asked for, codewords of type 5 too, and are refused by
/// number: so this is no enum of rows and tables.
#[derive(Clone, Copy, PartialEq, Eq, Debug)]
pub struct Shape {
    /// The subscript of the first element.
    pub base: i64,
    /// How many elements there are.
    pub length: u64,
    /// Whether the elements are codewords, which label further blocks.
    pub codes: bool,
    /// The type number of the elements, 0 for codewords.
    pub kind: u64,
}

impl Shape {
    /// A row of so many items of a kind, from a subscript on.
    pub fn row<K: Kind>(base: i64, length: u64) -> Shape
        ensures { result ≡ row K.Kind.TYPE base length }
    {
        Shape {
            base,
            length,
            codes: false,
            kind: K::TYPE,
        }
    }

    /// A table of so many codewords, from a subscript on.
    pub fn table(base: i64, length: u64) -> Shape
        ensures { result ≡ table base length }
    {
        Shape {
            base,
            length,
            codes: true,
            kind: 0,
        }
    }
}

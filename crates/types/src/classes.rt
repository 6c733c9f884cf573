// Which types an operator takes.
ghost use Rattle.std.specs.Prelude.{◌≡◌};
ghost use Rattle.types.specs.Table.{numeric_shape, is_bool, is_text, ordered_shape, base_shape, cast_shape};

use crate::Shape;

impl Shape {
    pub fn is_numeric(self) -> bool
        ensures { result ≡ numeric_shape self }
    {
        matches!(self, Shape::Int | Shape::Rune)
    }

    pub fn is_bool(self) -> bool
        ensures { result ≡ is_bool self }
    {
        self == Shape::Bool
    }

    pub fn is_text(self) -> bool
        ensures { result ≡ is_text self }
    {
        self == Shape::Text
    }

    pub fn is_ordered(self) -> bool
        ensures { result ≡ ordered_shape self }
    {
        self.is_numeric() || self.is_text()
    }

    pub fn is_base(self) -> bool
        ensures { result ≡ base_shape self }
    {
        self.is_ordered() || self.is_bool()
    }

    pub fn is_castable(self) -> bool
        ensures { result ≡ cast_shape self }
    {
        self.is_numeric() || self.is_bool()
    }
}

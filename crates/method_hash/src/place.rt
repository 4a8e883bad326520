//! Where reading a method's text has come to.
ghost use Rattle.std.specs.Prelude.{◌≡◌, ◌↔◌, IsTrue};
ghost use Rattle.method_hash.specs.declared.place.TextPlace.TheVariants.{End};
ghost use Rattle.method_hash.specs.MethodText.{is_name_byte, is_class_byte};
ghost use Rattle.method_hash.specs.Next.{begin, part_next, next, in_parameter, in_result, need};

use class_desc::TypeCode;

/// The most bytes of a method's name, and the most parameters of a method.
pub const MAX_METHOD_PARTS: u32 = 255;

/// Where in a type's text reading stands.
#[derive(Clone, Copy, Debug, PartialEq, Eq)]
pub(crate) enum Part {
    /// Behind a bracket: before the type of the elements.
    Elements,
    /// Behind the letter `L`: before the class's name.
    Class,
    /// In the class's name.
    ClassName,
}

/// The state of a type that has begun.
#[derive(Clone, Copy, Debug, PartialEq, Eq)]
pub(crate) enum Begun {
    /// It is whole.
    Whole,
    /// It goes on.
    In(Part),
}

/// Where in a method's text reading stands.
#[derive(Clone, Copy, Debug, PartialEq, Eq)]
pub(crate) enum TextPlace {
    /// In the name, of which so many bytes were read.
    Name(u32),
    /// Before a parameter or the closing parenthesis; so many parameters were read.
    Parameters(u32),
    /// In the type of a parameter, with which so many were begun.
    Parameter(u32, Part),
    /// Before the result's type.
    Returned,
    /// In the result's type.
    ReturnedType(Part),
    /// At the end.
    End,
}

/// Returns whether a class's name may contain a byte, in the text of a type.
pub fn is_class_byte(byte: u8) -> bool
    ensures { result ≡ is_class_byte byte }
{
    0x21 <= byte && byte <= 0x7E && byte != b';' && byte != b'(' && byte != b')' && byte != b'['
}

/// Returns whether a method's name may contain a byte.
fn is_name_byte(byte: u8) -> bool
    ensures { result ≡ is_name_byte byte }
{
    is_class_byte(byte) && byte != b'/' && byte != b'.'
}

/// Returns the state of a type behind its first byte. It is None where no type begins with that byte.
#[tactic(auto, unfolding(crate::specs::Next::begin))]
fn begin(byte: u8) -> Option<Begun>
    ensures { result ≡ begin byte }
{
    match TypeCode::from_letter(byte) {
        Some(TypeCode::Array) => Some(Begun::In(Part::Elements)),
        Some(TypeCode::Object) => Some(Begun::In(Part::Class)),
        Some(_) => Some(Begun::Whole),
        None => None,
    }
}

impl Part {
    /// Returns the state of the type behind a further byte. It is None where no type goes on with that byte.
    #[tactic(auto, unfolding(crate::specs::Next::part_next))]
    fn next(self, byte: u8) -> Option<Begun>
        ensures { result ≡ part_next self byte }
    {
        match self {
            Part::Elements => begin(byte),
            Part::Class if is_class_byte(byte) => Some(Begun::In(Part::ClassName)),
            Part::Class => None,
            Part::ClassName if byte == b';' => Some(Begun::Whole),
            Part::ClassName if is_class_byte(byte) => Some(Begun::In(Part::ClassName)),
            Part::ClassName => None,
        }
    }
}

impl TextPlace {
    /// Where reading stands behind so much of a parameter's type.
    fn in_parameter(count: u32, begun: Begun) -> TextPlace
        ensures { result ≡ in_parameter count begun }
    {
        match begun {
            Begun::Whole => TextPlace::Parameters(count),
            Begun::In(part) => TextPlace::Parameter(count, part),
        }
    }

    /// Where reading stands behind so much of the result's type.
    fn in_result(begun: Begun) -> TextPlace
        ensures { result ≡ in_result begun }
    {
        match begun {
            Begun::Whole => TextPlace::End,
            Begun::In(part) => TextPlace::ReturnedType(part),
        }
    }

    /// Where reading stands behind a further byte; None where no method's text goes on with it.
    #[tactic(auto, unfolding(crate::specs::Next::next))]
    pub(crate) fn next(self, byte: u8) -> Option<TextPlace>
        ensures { result ≡ next self byte }
    {
        match self {
            TextPlace::Name(read) if byte == b'(' && read > 0 => Some(TextPlace::Parameters(0)),
            TextPlace::Name(read) if is_name_byte(byte) && read < MAX_METHOD_PARTS => Some(
                TextPlace::Name(read + 1),
            ),
            TextPlace::Name(_) => None,
            TextPlace::Parameters(_) if byte == b')' => Some(TextPlace::Returned),
            TextPlace::Parameters(read) if read < MAX_METHOD_PARTS => {
                Some(TextPlace::in_parameter(read + 1, begin(byte)?))
            }
            TextPlace::Parameters(_) => None,
            TextPlace::Parameter(count, part) => {
                Some(TextPlace::in_parameter(count, part.next(byte)?))
            }
            TextPlace::Returned if byte == b'V' => Some(TextPlace::End),
            TextPlace::Returned => Some(TextPlace::in_result(begin(byte)?)),
            TextPlace::ReturnedType(part) => Some(TextPlace::in_result(part.next(byte)?)),
            TextPlace::End => None,
        }
    }

    /// Returns whether the text is whole.
    pub(crate) fn is_end(self) -> bool
        ensures { IsTrue result ↔ (self ≡ End) }
    {
        match self {
            TextPlace::End => true,
            _ => false,
        }
    }

    /// Returns the least number of bytes that are still to come.
    pub(crate) fn need(self) -> usize
        ensures { result ≡ need self }
    {
        match self {
            TextPlace::Name(0) => 4,
            TextPlace::Name(_) => 3,
            TextPlace::Parameters(_) => 2,
            TextPlace::Parameter(_, Part::Class) => 4,
            TextPlace::Parameter(_, _) => 3,
            TextPlace::Returned => 1,
            TextPlace::ReturnedType(Part::Class) => 2,
            TextPlace::ReturnedType(_) => 1,
            TextPlace::End => 0,
        }
    }
}

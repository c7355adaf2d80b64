// The number of a type, by which tables keep it.
#![tactic(auto)]

ghost use Rattle.std.specs.Prelude.{◌≡◌};
ghost use Rattle.types.specs.Kept.{type_number, type_in};

use definition::ValueType;

// stays: a match and no cast, since the variants and their order are another crate's
pub fn type_number(t: ValueType) -> u16
    ensures { result ≡ type_number t }
{
    match t {
        ValueType::FixedType => 0,
        ValueType::CharacterType => 1,
    }
}

pub fn type_in(k: u16) -> ValueType
    ensures { result ≡ type_in k }
{
    match k {
        0 => ValueType::FixedType,
        _ => ValueType::CharacterType,
    }
}

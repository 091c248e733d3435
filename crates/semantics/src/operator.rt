ghost use Rattle.std.specs.Prelude.{◌≡◌};
ghost use Rattle.semantics.specs.Operators.{operator_number, OperatorFrom};

/// How a condition compares its left side with its right.
#[derive(Clone, Copy, PartialEq, Eq, Debug)]
pub enum Operator {
    Equal = 1,
    Unequal = 2,
    Less = 3,
    AtMost = 4,
    Covers = 5,
    Shorter = 6,
}

/// Said of a number that no operator has.
#[derive(Clone, Copy, PartialEq, Eq, Debug)]
pub struct UnknownOperator;

/// The operator with this number.
impl TryFrom<u8> for Operator {
    type Error = UnknownOperator;

    ghost try_from_gives = { OperatorFrom };

    fn try_from(number: u8) -> Result<Operator, UnknownOperator> {
        match number {
            1 => Ok(Operator::Equal),
            2 => Ok(Operator::Unequal),
            3 => Ok(Operator::Less),
            4 => Ok(Operator::AtMost),
            5 => Ok(Operator::Covers),
            6 => Ok(Operator::Shorter),
            _ => Err(UnknownOperator),
        }
    }
}

/// The number of the operator.
impl From<Operator> for u8 {
    ghost from_gives = { λ operator number. number ≡ operator_number operator };

    fn from(operator: Operator) -> u8 {
        operator as u8
    }
}

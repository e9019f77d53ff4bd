// Why bytes are no level.
ghost use Rattle.std.specs.Prelude.{◌≡◌};
ghost use Rattle.level.specs.declared.fault.Reason.TheVariants.{Operand};
ghost use Rattle.level.specs.Faults.{number};

// What is wrong with a command's operands.
#[derive(Clone, Copy, Debug, PartialEq, Eq)]
pub enum OperandFault {
    // a value that names nothing, or lies outside its range
    OutOfRange,
    // one item more than a level may have
    TooMany,
}

#[derive(Clone, Copy, Debug, PartialEq, Eq)]
pub enum Reason {
    // over 8,192 bytes
    TooLong,
    // the bytes end too soon
    Truncated,
    // no command has this byte here
    NotCommand,
    Operand(OperandFault),
    // an expression nested nine deep
    TooDeep,
    // the ninth statement of an effect
    TooManyStatements,
}

// By hand, since what a derived `From` makes is not said by any clause.
impl From<OperandFault> for Reason {
    ghost from_gives = { λ x y. y ≡ Operand x };

    fn from(fault: OperandFault) -> Reason {
        Reason::Operand(fault)
    }
}

// A refusal: the reason, and the byte of the level that it names.
#[derive(Clone, Copy, Debug, PartialEq, Eq)]
pub struct LevelFault {
    pub reason: Reason,
    pub byte: usize,
}

impl LevelFault {
    // The number of the refusal, 10 to 14. A method and no `From`, since it says of what it is the number.
    pub fn number(&self) -> u8
        ensures { result ≡ number self.now }
    {
        match self.reason {
            Reason::TooLong => 10,
            Reason::Truncated => 11,
            Reason::NotCommand => 12,
            Reason::Operand(_) => 13,
            Reason::TooDeep | Reason::TooManyStatements => 14,
        }
    }
}
